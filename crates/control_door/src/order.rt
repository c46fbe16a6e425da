//! Reads the lines of the control door.
//! Pure.
ghost use Rattle.std.specs.Prelude.{◌≡◌, ◌≤◌, true, length};
ghost use Rattle.control_door.specs.Orders.{order_of, begins_with as begins, deliver_order as deliver_order_of, number_in as number_of, show_order as show_order_of, remove_order as remove_order_of, purge_order as purge_order_of, edit_words as edit_words_of, edit_order as edit_order_of, thread_order as thread_order_of};

use arch_base::read_decimal;
use memchr::memchr;

/// The order that a line gives.
#[derive(Clone, Copy, Debug, PartialEq, Eq, Drop)]
pub enum Order {
    /// A message of this many bytes follows: at most 9,000,000.
    Deliver(u32),
    /// A message of more bytes would follow.
    TooMuch,
    /// Shows the text of this number: 1 to 2,147,483,647.
    Show(u32),
    /// Removes the message with this number: 1 to 2,147,483,647.
    Remove(u32),
    /// Purges the text of this number: 1 to 2,147,483,647.
    Purge(u32),
    /// A message that takes the place of this number follows, of this many bytes: at most 9,000,000.
    Edit(u32, u32),
    /// Shows the thread of this number: 1 to 2,147,483,647.
    Thread(u32),
    /// Lists the epochs.
    Epochs,
    /// Builds anew what is kept beside the files of the archive.
    Reindex,
    /// Ends the connection.
    Quit,
    /// An unknown order.
    Bad,
}

/// The greatest SIZE of `deliver SIZE` and `edit N SIZE`, in bytes.
const SIZE_LIMIT: u64 = 9_000_000;

/// The greatest number of a message.
const NUMBER_LIMIT: u64 = 2_147_483_647;

/// Reads the order of a line, which has no line end.
///
/// The orders are `deliver SIZE`, `show N`, `remove N`, `purge N`, `edit N SIZE`, `thread N`, `epochs`,
/// `reindex` and `quit`. Words are read in any case. A single space comes before SIZE and N, which are
/// decimals without leading zeros.
pub fn read_order(line: &[u8]) -> Order
    ensures { result ≡ order_of line.now }
{
    if begins_with(b"deliver ", line) {
        deliver_order(read_decimal(&line[8..]))
    } else if begins_with(b"show ", line) {
        show_order(number_in(read_decimal(&line[5..])))
    } else if begins_with(b"remove ", line) {
        remove_order(number_in(read_decimal(&line[7..])))
    } else if begins_with(b"purge ", line) {
        purge_order(number_in(read_decimal(&line[6..])))
    } else if begins_with(b"edit ", line) {
        read_edit(&line[5..])
    } else if begins_with(b"thread ", line) {
        thread_order(number_in(read_decimal(&line[7..])))
    } else if line.eq_ignore_ascii_case(b"epochs") {
        Order::Epochs
    } else if line.eq_ignore_ascii_case(b"reindex") {
        Order::Reindex
    } else if line.eq_ignore_ascii_case(b"quit") {
        Order::Quit
    } else {
        Order::Bad
    }
}

/// Returns whether a line starts with a word, in any case.
fn begins_with(word: &[u8], line: &[u8]) -> bool
    ensures value { result ≡ begins word.now line.now }
    ensures room { result ≡ true → length word.now ≤ length line.now }
{
    line.len() >= word.len() && line[..word.len()].eq_ignore_ascii_case(word)
}

/// Returns the order of `deliver` with this decimal, or `Bad` without one.
fn deliver_order(size: Option<u64>) -> Order
    ensures { result ≡ deliver_order_of size }
{
    match size {
        None => Order::Bad,
        Some(size) => {
            if size <= SIZE_LIMIT {
                Order::Deliver(size as u32)
            } else {
                Order::TooMuch
            }
        }
    }
}

/// Returns the number of a message that a decimal gives, if it is in 1 to 2,147,483,647.
fn number_in(decimal: Option<u64>) -> Option<u32>
    ensures { result ≡ number_of decimal }
{
    match decimal {
        None => None,
        Some(number) => {
            if number >= 1 && number <= NUMBER_LIMIT {
                Some(number as u32)
            } else {
                None
            }
        }
    }
}

/// Returns the order of `show` with this number, or `Bad` without one.
fn show_order(number: Option<u32>) -> Order
    ensures { result ≡ show_order_of number }
{
    match number {
        None => Order::Bad,
        Some(number) => Order::Show(number),
    }
}

/// Returns the order of `remove` with this number, or `Bad` without one.
fn remove_order(number: Option<u32>) -> Order
    ensures { result ≡ remove_order_of number }
{
    match number {
        None => Order::Bad,
        Some(number) => Order::Remove(number),
    }
}

/// Returns the order of `purge` with this number, or `Bad` without one.
fn purge_order(number: Option<u32>) -> Order
    ensures { result ≡ purge_order_of number }
{
    match number {
        None => Order::Bad,
        Some(number) => Order::Purge(number),
    }
}

/// Reads the order of `edit` with these words after it: a number, a space and a size.
fn read_edit(words: &[u8]) -> Order
    ensures { result ≡ edit_words_of words.now }
{
    match memchr(b' ', words) {
        None => Order::Bad,
        Some(at) => edit_order(
            number_in(read_decimal(&words[..at])),
            read_decimal(&words[at + 1..]),
        ),
    }
}

/// Returns the order of `edit` with this number and this decimal, or `Bad` without one of them.
fn edit_order(number: Option<u32>, size: Option<u64>) -> Order
    ensures { result ≡ edit_order_of number size }
{
    let Some(number) = number else {
        return Order::Bad;
    };
    match size {
        None => Order::Bad,
        Some(size) => {
            if size <= SIZE_LIMIT {
                Order::Edit(number, size as u32)
            } else {
                Order::TooMuch
            }
        }
    }
}

/// Returns the order of `thread` with this number, or `Bad` without one.
fn thread_order(number: Option<u32>) -> Order
    ensures { result ≡ thread_order_of number }
{
    match number {
        None => Order::Bad,
        Some(number) => Order::Thread(number),
    }
}

//! Reads commands from their lines.
//! Pure.
ghost use Rattle.std.specs.Prelude.{◌≡◌, not, Some, option_map};
ghost use Rattle.std.specs.Int.{IsInRange};
ghost use Rattle.std.specs.List.{list_all, list_any};
ghost use Rattle.mail_reader.specs.Lines.{is_name_byte as name_byte};
ghost use Rattle.nntp_words.specs.Wildmats.{is_special};
ghost use Rattle.nntp_reader.specs.Words.{words_of};
ghost use Rattle.nntp_reader.specs.Commands as commands;
ghost use Rattle.nntp_reader.specs.Sessions.{meant, article_of, articles_of, header_of};

use crate::order::{Asked, Named, Order, Span};
use crate::verb::{Listing, Part, Verb, read_listing, read_verb};
use crate::words::{is_keyword, next_word};
use nntp_words::{Range, is_id, matches, read_moment, read_number, read_range};

/// The range of all numbers that an article may have.
const ALL_NUMBERS: Range = Range {
    first: 1,
    last: 2_147_483_647,
};

/// Reads the command of a line, which has no line end. The year gives dates of two digits their
/// century.
#[tactic(auto, unfolding(crate::specs::Commands::command_of))]
pub(crate) fn read_order(year: u16, line: &[u8]) -> Order<'_>
    requires { IsInRange 1970 9999 year }
    ensures { meant result ≡ commands.command_of year line.now }
{
    let Some((word, rest)) = next_word(line) else {
        return Order::Unknown;
    };
    match read_verb(word) {
        Some(verb) => read_arguments(verb, year, rest),
        None => Order::Unknown,
    }
}

/// Reads the command of a verb and the words after it.
fn read_arguments(verb: Verb, year: u16, rest: &[u8]) -> Order<'_>
    requires { IsInRange 1970 9999 year }
    ensures { meant result ≡ commands.command_with verb year (words_of rest.now) }
{
    match verb {
        Verb::Capabilities => read_capabilities(rest),
        Verb::Mode => read_mode(rest),
        Verb::Date => alone(Order::Date, rest),
        Verb::Help => alone(Order::Help, rest),
        Verb::Quit => alone(Order::Quit, rest),
        Verb::Post => alone(Order::Post, rest),
        Verb::Next => alone(Order::Next, rest),
        Verb::Last => alone(Order::Last, rest),
        Verb::Group => read_group(rest),
        Verb::ListGroup => read_list_group(rest),
        Verb::Read(part) => read_of(part, read_article(rest)),
        Verb::Stat => stat_of(read_article(rest)),
        Verb::Over => read_over(rest),
        Verb::Header => read_header(rest),
        Verb::List => read_list(rest),
        Verb::NewGroups => read_new_groups(year, rest),
        Verb::NewNews => read_new_news(year, rest),
    }
}

/// Returns a command if no word follows.
fn alone<'a>(order: Order<'a>, rest: &[u8]) -> Order<'a>
    ensures { meant result ≡ commands.alone (meant order.entry) (words_of rest.now) }
{
    match next_word(rest) {
        None => order,
        Some(_) => Order::Mistaken,
    }
}

/// Reads the arguments of CAPABILITIES.
fn read_capabilities(rest: &[u8]) -> Order<'_>
    ensures { meant result ≡ commands.capabilities_with (words_of rest.now) }
{
    match next_word(rest) {
        None => Order::Capabilities,
        Some((_, after)) => alone(Order::Capabilities, after),
    }
}

/// Reads the arguments of MODE.
fn read_mode(rest: &[u8]) -> Order<'_>
    ensures { meant result ≡ commands.mode_with (words_of rest.now) }
{
    match next_word(rest) {
        None => Order::Mistaken,
        Some((word, after)) => {
            if is_keyword(b"READER", word) {
                alone(Order::ModeReader, after)
            } else {
                Order::Mistaken
            }
        }
    }
}

/// Reads the arguments of GROUP.
fn read_group(rest: &[u8]) -> Order<'_>
    ensures { meant result ≡ commands.group_with (words_of rest.now) }
{
    match next_word(rest) {
        None => Order::Mistaken,
        Some((name, after)) => alone(Order::Group(name), after),
    }
}

/// Reads the arguments of LISTGROUP.
fn read_list_group(rest: &[u8]) -> Order<'_>
    ensures { meant result ≡ commands.list_group_with (words_of rest.now) }
{
    let Some((name, after)) = next_word(rest) else {
        return Order::ListSelected(ALL_NUMBERS);
    };
    let Some((word, end)) = next_word(after) else {
        return Order::ListGroup(name, ALL_NUMBERS);
    };
    alone(list_group_within(name, read_range(word)), end)
}

/// Returns LISTGROUP of a group and a range, if there is one.
fn list_group_within(name: &[u8], range: Option<Range>) -> Order<'_>
    ensures { meant result ≡ commands.list_group_within name.now range }
{
    match range {
        None => Order::Mistaken,
        Some(range) => Order::ListGroup(name, range),
    }
}

/// Reads an article from words: the current one without any, and one by its number or its id.
fn read_article(rest: &[u8]) -> Option<Named<'_>>
    ensures { option_map article_of result ≡ commands.article_in (words_of rest.now) }
{
    let Some((word, after)) = next_word(rest) else {
        return Some(Named::Current);
    };
    match next_word(after) {
        None => article_named(word),
        Some(_) => None,
    }
}

/// Returns the article that a word names by its number or its id.
fn article_named(word: &[u8]) -> Option<Named<'_>>
    ensures { option_map article_of result ≡ commands.article_named word.now }
{
    if is_id(word) {
        return Some(Named::Id(word));
    }
    match read_number(word) {
        None => None,
        Some(number) => Some(Named::Number(number)),
    }
}

/// Reads articles from words: the current one without any, and one by its id or those in a range.
fn read_articles(rest: &[u8]) -> Option<Span<'_>>
    ensures { option_map articles_of result ≡ commands.articles_in (words_of rest.now) }
{
    let Some((word, after)) = next_word(rest) else {
        return Some(Span::Single(Named::Current));
    };
    match next_word(after) {
        None => articles_named(word),
        Some(_) => None,
    }
}

/// Returns the articles that a word names by an id or a range.
fn articles_named(word: &[u8]) -> Option<Span<'_>>
    ensures { option_map articles_of result ≡ commands.articles_named word.now }
{
    if is_id(word) {
        return Some(Span::Single(Named::Id(word)));
    }
    match read_range(word) {
        None => None,
        Some(range) => Some(Span::Within(range)),
    }
}

/// Returns the command that gives a part of an article, if there is one.
fn read_of(part: Part, article: Option<Named<'_>>) -> Order<'_>
    ensures { meant result ≡ commands.read_of part (option_map article_of article.entry) }
{
    match article {
        None => Order::Mistaken,
        Some(article) => Order::Read(part, article),
    }
}

/// Returns STAT of an article, if there is one.
fn stat_of(article: Option<Named<'_>>) -> Order<'_>
    ensures { meant result ≡ commands.stat_of (option_map article_of article.entry) }
{
    match article {
        None => Order::Mistaken,
        Some(article) => Order::Stat(article),
    }
}

/// Reads the arguments of OVER.
fn read_over(rest: &[u8]) -> Order<'_>
    ensures { meant result ≡ commands.over_of_articles (commands.articles_in (words_of rest.now)) }
{
    match read_articles(rest) {
        None => Order::Mistaken,
        Some(articles) => Order::Over(articles),
    }
}

/// Reads the arguments of HDR.
fn read_header(rest: &[u8]) -> Order<'_>
    ensures { meant result ≡ commands.header_with (words_of rest.now) }
{
    let Some((word, after)) = next_word(rest) else {
        return Order::Mistaken;
    };
    headers_of(header_named(word), read_articles(after))
}

/// Returns HDR of a header and articles, if both are there.
fn headers_of<'a>(header: Option<Asked<'a>>, articles: Option<Span<'a>>) -> Order<'a>
    ensures { meant result
        ≡ commands.headers_of (option_map header_of header.entry)
        (option_map articles_of articles.entry) }
{
    match (header, articles) {
        (Some(header), Some(articles)) => Order::Header(header, articles),
        _ => Order::Mistaken,
    }
}

/// Returns the header that a word names.
fn header_named(word: &[u8]) -> Option<Asked<'_>>
    ensures { option_map header_of result ≡ commands.header_named word.now }
{
    if is_keyword(b":bytes", word) {
        return Some(Asked::Bytes);
    }
    if is_keyword(b":lines", word) {
        return Some(Asked::Lines);
    }
    if is_field_name(word) {
        return Some(Asked::Field(word));
    }
    None
}

/// Returns whether all bytes of a word may be those of a field's name (RFC 5322, section 2.2).
fn is_field_name(word: &[u8]) -> bool
    ensures { result ≡ list_all name_byte word.now }
{
    word.iter().all(|byte| is_name_byte(*byte))
}

/// Returns whether a byte may be one of a field's name.
fn is_name_byte(byte: u8) -> bool
    ensures { result ≡ name_byte byte }
{
    byte >= 33 && byte <= 126 && byte != b':'
}

/// Reads the arguments of LIST.
fn read_list(rest: &[u8]) -> Order<'_>
    ensures { meant result ≡ commands.list_with (words_of rest.now) }
{
    let Some((word, after)) = next_word(rest) else {
        return Order::List(Listing::Active);
    };
    match read_listing(word) {
        None => Order::Mistaken,
        Some(Listing::Active) => read_group_list(Listing::Active, after),
        Some(Listing::ActiveTimes) => read_group_list(Listing::ActiveTimes, after),
        Some(Listing::Newsgroups) => read_group_list(Listing::Newsgroups, after),
        Some(Listing::OverviewFormat) => alone(Order::List(Listing::OverviewFormat), after),
        Some(Listing::Headers) => read_header_list(after),
    }
}

/// Reads the wildmat of a list of groups.
fn read_group_list(listing: Listing, rest: &[u8]) -> Order<'_>
    ensures { meant result ≡ commands.groups_listed listing (words_of rest.now) }
{
    let Some((wildmat, after)) = next_word(rest) else {
        return Order::List(listing);
    };
    if !is_wildmat(wildmat) {
        return Order::Mistaken;
    }
    alone(Order::ListMatching(listing, wildmat), after)
}

/// Returns whether a word is a wildmat: it has no bracket and no backslash.
fn is_wildmat(word: &[u8]) -> bool
    ensures { result ≡ not (list_any is_special word.now) }
{
    matches(word, b"").is_some()
}

/// Reads the arguments of LIST HEADERS.
fn read_header_list(rest: &[u8]) -> Order<'_>
    ensures { meant result ≡ commands.headers_listed (words_of rest.now) }
{
    let Some((word, after)) = next_word(rest) else {
        return Order::List(Listing::Headers);
    };
    if is_keyword(b"MSGID", word) || is_keyword(b"RANGE", word) {
        return alone(Order::List(Listing::Headers), after);
    }
    Order::Mistaken
}

/// Reads a date and a time, which `GMT` may follow. A moment before 1970 is the first of 1970.
fn read_since(year: u16, rest: &[u8]) -> Option<u64>
    requires { IsInRange 1970 9999 year }
    ensures { result ≡ commands.moment_in year (words_of rest.now) }
{
    let (date, after) = next_word(rest)?;
    let (time, end) = next_word(after)?;
    if !ends_in_utc(end) {
        return None;
    }
    since(read_moment(date, time, year))
}

/// Returns whether no word follows, or only `GMT` in any case.
fn ends_in_utc(rest: &[u8]) -> bool
    ensures { result ≡ commands.ends_in_utc (words_of rest.now) }
{
    match next_word(rest) {
        None => true,
        Some((word, after)) => is_keyword(b"GMT", word) && next_word(after).is_none(),
    }
}

/// Returns a moment, where one before 1970 counts as the first of 1970.
fn since(moment: Option<i64>) -> Option<u64>
    ensures { result ≡ commands.since moment }
{
    match moment {
        None => None,
        Some(moment) => {
            if moment < 0 {
                return Some(0);
            }
            Some(moment as u64)
        }
    }
}

/// Reads the arguments of NEWGROUPS.
fn read_new_groups(year: u16, rest: &[u8]) -> Order<'_>
    requires { IsInRange 1970 9999 year }
    ensures { meant result ≡ commands.new_groups_of (commands.moment_in year (words_of rest.now)) }
{
    match read_since(year, rest) {
        None => Order::Mistaken,
        Some(moment) => Order::NewGroups(moment),
    }
}

/// Reads the arguments of NEWNEWS.
fn read_new_news(year: u16, rest: &[u8]) -> Order<'_>
    requires { IsInRange 1970 9999 year }
    ensures { meant result ≡ commands.new_news_with year (words_of rest.now) }
{
    let Some((wildmat, after)) = next_word(rest) else {
        return Order::Mistaken;
    };
    match read_since(year, after) {
        None => Order::Mistaken,
        Some(moment) => new_news(wildmat, moment),
    }
}

/// Returns NEWNEWS of a word and a moment, if the word is a wildmat.
fn new_news(wildmat: &[u8], moment: u64) -> Order<'_>
    ensures { meant result ≡ commands.new_news_of wildmat.now (Some moment) }
{
    if !is_wildmat(wildmat) {
        return Order::Mistaken;
    }
    Order::NewNews(wildmat, moment)
}

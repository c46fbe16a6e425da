//! The overview of rows, beside what the rules say of them.
use arch_base::{Bytes, MessageNumbers, NoMemory, ObjectId, Texts};
use mail_date::Moment;
use mail_forms::Row;
use overview_index::Overview;
use std::alloc::Global;

/// Returns a row with a number, an id and a date.
fn row(alloc: Global, number: u32, id: &[u8], secs: u64) -> Result<Row, NoMemory> {
    let mut own = Bytes::new(alloc);
    own.push_slice(id)?;
    Ok(Row {
        number,
        blob: ObjectId::Sha1([0; 20]),
        id: own,
        refs: Texts::new(alloc),
        subject: Bytes::new(alloc),
        from: Bytes::new(alloc),
        date: Moment { secs, zone: 0 },
        arrived: 0,
        size: 0,
        wire: 0,
        mbox: 0,
        lines: 0,
        over: Bytes::new(alloc),
        content: [0; 32],
    })
}

/// Adds a row, and returns whether its number and its id were new.
fn add(overview: &mut Overview, row: Row) -> Result<bool, NoMemory> {
    if overview.get(row.number).is_some() {
        return Ok(false);
    }
    if overview.by_id(row.id.as_slice()).is_some() {
        return Ok(false);
    }
    overview.add(row)?;
    Ok(true)
}

/// A row's number, id and date.
type Given = (u32, &'static [u8], u64);

/// Rows whose dates rise, fall and meet.
const ROWS: [Given; 7] = [
    (1, b"<a@x>", 500),
    (2, b"<b@x>", 300),
    (4, b"<c@x>", 500),
    (5, b"<d@x>", 0),
    (9, b"<e@x>", 253_402_300_799),
    (10, b"<f@x>", 300),
    (4_294_967_295, b"<g@x>", 300),
];

/// Returns the overview of the rows, added in this order of their indices.
fn overview_of(alloc: Global, order: &[usize; 7]) -> Result<Overview, NoMemory> {
    let mut overview = Overview::new(alloc);
    for index in order {
        if *index < 7 {
            let (number, id, secs) = ROWS[*index];
            add(&mut overview, row(alloc, number, id, secs)?)?;
        }
    }
    Ok(overview)
}

/// Returns whether numbers are the wanted ones.
fn are(numbers: &MessageNumbers, wanted: &[u32]) -> bool {
    numbers.as_slice() == wanted
}

/// Returns whether an overview gives each row under its number and its id, and no other.
fn finds_each(overview: &Overview) -> bool {
    ROWS.iter().all(|(number, id, secs)| {
        overview.by_id(id) == Some(*number)
            && matches!(overview.get(*number), Some(row) if row.date.secs == *secs)
    }) && overview.get(3).is_none()
        && overview.by_id(b"<h@x>").is_none()
}

/// Returns whether the pages of an overview are those of the dates, newest first.
fn pages_by_date(overview: &Overview) -> Result<bool, NoMemory> {
    let all = overview.page(0, 100)?;
    let middle = overview.page(2, 3)?;
    let last = overview.page(6, 18_446_744_073_709_551_615)?;
    let past = overview.page(7, 1)?;
    Ok(
        are(&all, &[9, 4, 1, 4_294_967_295, 10, 2, 5])
            && are(&middle, &[1, 4_294_967_295, 10])
            && are(&last, &[5])
            && are(&past, &[]),
    )
}

/// Returns whether those of some numbers that have a row come newest first, and each once.
fn some_by_date(overview: &Overview) -> Result<bool, NoMemory> {
    let some = overview.newest_first(&[1, 9, 3, 9, 2, 4_294_967_294, 4])?;
    let none = overview.newest_first(&[3])?;
    Ok(are(&some, &[9, 4, 1, 2]) && are(&none, &[]))
}

/// Returns whether an overview of the rows, added in an order, finds and pages them.
fn is_right(alloc: Global, order: &[usize; 7]) -> Result<bool, NoMemory> {
    let overview = overview_of(alloc, order)?;
    Ok(finds_each(&overview) && pages_by_date(&overview)? && some_by_date(&overview)?)
}

#[test]
fn rows_are_found_and_paged_in_whichever_order_they_came(rt: HostRuntime) {
    for order in &[
        [0, 1, 2, 3, 4, 5, 6],
        [6, 5, 4, 3, 2, 1, 0],
        [3, 0, 6, 2, 5, 1, 4],
    ] {
        assert!(rt; matches!(is_right(rt.alloc(), order), Ok(true)));
    }
}

/// Returns whether the live numbers around some are those of the rows.
fn has_neighbours(overview: &Overview) -> bool {
    overview.live_from(0) == Some(1)
        && overview.live_from(3) == Some(4)
        && overview.live_from(11) == Some(4_294_967_295)
        && overview.live_to(0).is_none()
        && overview.live_to(8) == Some(5)
        && overview.live_to(4_294_967_294) == Some(10)
}

/// Returns whether as many numbers are live as there are rows.
fn has_counts(overview: &Overview) -> bool {
    overview.live_count(0, 4_294_967_295) == 7
        && overview.live_count(2, 9) == 4
        && overview.live_count(3, 3) == 0
        && overview.live_count(4, 4) == 1
        && overview.live_count(9, 4) == 0
        && overview.live_count(4_294_967_295, 4_294_967_295) == 1
}

/// Returns whether the numbers around some and their counts are those of the rows.
fn has_numbers(alloc: Global) -> Result<bool, NoMemory> {
    let overview = overview_of(alloc, &[0, 1, 2, 3, 4, 5, 6])?;
    Ok(has_neighbours(&overview) && has_counts(&overview))
}

#[test]
fn live_numbers_are_found_and_counted(rt: HostRuntime) {
    assert!(rt; matches!(has_numbers(rt.alloc()), Ok(true)));
}

/// Returns whether a taken row is gone from each order, and another one may have its number and its
/// id.
fn is_taken(alloc: Global) -> Result<bool, NoMemory> {
    let mut overview = overview_of(alloc, &[0, 1, 2, 3, 4, 5, 6])?;
    let taken = overview.take(4) && !overview.take(4) && !overview.take(3);
    let gone = overview.get(4).is_none() && overview.by_id(b"<c@x>").is_none();
    let paged = are(&overview.page(0, 3)?, &[9, 1, 4_294_967_295]);
    let again = add(&mut overview, row(alloc, 4, b"<c@x>", 400)?)?;
    let back = are(&overview.page(1, 2)?, &[1, 4]);
    Ok(taken && gone && paged && again && back)
}

#[test]
fn a_taken_row_is_gone(rt: HostRuntime) {
    assert!(rt; matches!(is_taken(rt.alloc()), Ok(true)));
}

/// Returns whether all rows may be taken, in an order of their own.
fn is_emptied(alloc: Global) -> Result<bool, NoMemory> {
    let mut overview = overview_of(alloc, &[2, 4, 6, 0, 1, 3, 5])?;
    let mut all = true;
    for number in [10, 1, 4_294_967_295, 5, 4, 9, 2] {
        all = overview.take(number) && all;
    }
    let empty = are(&overview.page(0, 10)?, &[]) && overview.live_from(0).is_none();
    Ok(all && empty && overview.live_count(0, 4_294_967_295) == 0)
}

#[test]
fn an_emptied_overview_has_no_row(rt: HostRuntime) {
    assert!(rt; matches!(is_emptied(rt.alloc()), Ok(true)));
}

// What a diamond's page shows: both sheets, the record's own numbers, the cells, and what the ratio of each storage is told by.
#![tactic(auto)]

ghost use Rattle.std.specs.Prelude.{◌≡◌, ◌++◌, ◌+◌, ◌*◌, ◌<◌, ◌≤◌, cond, length, drop};
ghost use Rattle.answers.specs.declared.Answer.TheVariants.{Accepted};
ghost use Rattle.lists.specs.Lists.{over};
ghost use Rattle.layout.specs.declared.Worksheet.TheVariants.{Junction};
ghost use Rattle.layout.specs.Sheet.{sheet_count};
ghost use Rattle.layout.specs.Diamond.{storages_from, storage_count, page_own, page_volumes};
ghost use Rattle.entries.specs.Layout.{cycle as cycle_of};
ghost use Rattle.entries.specs.Judging.{judged};
ghost use Rattle.procedure.specs.Sheet.{sheet as sheet_of};
ghost use Rattle.diamond_rules.specs.Record.{west, east, storage, judged_record};
ghost use Rattle.diamond_rules.specs.Lines.{stored, fits, diamond as diamond_of};
ghost use Rattle.diamond_beside.specs.Beside.{volumes, rooms, ratios, page_numbers, filled_page};

use answers::Answer;
use diamond_rules::Record;
use layout::{CELLS, DIAMOND_CELLS, DIAMOND_PAGE, RECORD, STORAGES, Worksheet};
use std::array;

// Seconds of an hour, in which the volume is counted.
const HOUR: u32 = 3_600;

// N of a storage: the left volume that it is for, times the cycle.
fn volume_at(given: Record, k: usize) -> u32
    requires { k < storage_count }
    ensures { result ≡ stored given.entry.numbers.now k * cycle_of (west given.entry.numbers.now) }
{
    let cycle = procedure::read_cycle(given.west());
    let volume = diamond_storage::stored_at(given, k);
    volume.0.0 * cycle.0
}

// What N is compared with: 3600 times the storage.
fn room_at(given: Record, k: usize) -> u32
    requires { k < storage_count }
    ensures { result ≡ 3600 * storage given.entry.numbers.now k }
{
    HOUR * given.storage(k).0
}

// 1 where the ratio is below 1, else 0.
fn ratio_at(given: Record, k: usize) -> u32
    requires { k < storage_count }
    ensures { result ≡ cond (fits given.entry.numbers.now k) 1 0 }
{
    u32::from(diamond_storage::fits_at(given, k))
}

// Puts what tells the ratio of each storage.
fn put_ratios(given: Record, all: &mut [u32; DIAMOND_PAGE])
    ensures { all.new
        ≡ over all.old page_volumes (volumes given.entry.numbers.now ++ rooms given.entry.numbers.now ++ ratios given.entry.numbers.now) }
{
    let volumes: [u32; STORAGES] = array::from_fn(|k| volume_at(given, k));
    let rooms: [u32; STORAGES] = array::from_fn(|k| room_at(given, k));
    let ratios: [u32; STORAGES] = array::from_fn(|k| ratio_at(given, k));
    lists::put(all, layout::PAGE_VOLUMES, &volumes);
    lists::put(all, layout::PAGE_ROOMS, &rooms);
    lists::put(all, layout::PAGE_FITS, &ratios);
}

// Puts a junction's sheet.
fn put_sheet(entries: &[u32], all: &mut [u32], at: usize)
    requires { (judged entries.now ≡ Accepted) × (at + sheet_count Junction ≤ length all.old) }
    ensures { all.new ≡ over all.old at (sheet_of entries.now) }
{
    let mut cells = [0u32; CELLS];
    sheet::write_fresh(Worksheet::Junction, entries, &mut cells);
    lists::put(all, at, &cells);
}

fn put_sheets(given: Record, all: &mut [u32; DIAMOND_PAGE])
    ensures { all.new
        ≡ over all.old 0 (sheet_of (west given.entry.numbers.now) ++ sheet_of (east given.entry.numbers.now)) }
{
    put_sheet(given.west(), all, 0);
    put_sheet(given.east(), all, CELLS);
}

// Puts the record's own numbers and the cells.
fn put_cells(given: Record, cells: &[u32; DIAMOND_CELLS], all: &mut [u32; DIAMOND_PAGE])
    ensures { all.new ≡ over all.old page_own (drop storages_from given.entry.numbers.now ++ cells.now) }
{
    lists::put(
        all,
        layout::PAGE_OWN,
        &given.numbers[layout::STORAGES_FROM..],
    );
    lists::put(all, layout::PAGE_DIAMOND, cells);
}

// All that stands on the page, from the record and its cells.
fn put_all(given: Record, cells: &[u32; DIAMOND_CELLS], all: &mut [u32; DIAMOND_PAGE])
    requires { cells.now ≡ diamond_of given.numbers.now }
    ensures { all.new ≡ page_numbers given.entry.numbers.now }
{
    put_sheets(given, all);
    put_cells(given, cells, all);
    put_ratios(given, all);
}

// Rates the record, and fills the list with all that its page shows; where it is refused, the list stays as it was.
pub fn fill(numbers: &[u32; RECORD], all: &mut [u32; DIAMOND_PAGE]) -> Answer
    ensures value { result ≡ judged_record numbers.now }
    ensures all_after { all.new ≡ filled_page numbers.now all.old }
{
    let mut cells = [0u32; DIAMOND_CELLS];
    let answer = diamond::rate(numbers, &mut cells);
    let Answer::Accepted = answer else {
        return answer;
    };
    put_all(Record::new(numbers), &cells, all);
    Answer::Accepted
}

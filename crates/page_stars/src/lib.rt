// Where a star stands on the page: beside the numbers that decide.
#![tactic(auto)]

ghost use Rattle.std.specs.Prelude.{◌≡◌, ◌<◌, ◌≤◌, get_or};
ghost use Rattle.layout.specs.Entries.{approach_count};
ghost use Rattle.layout.specs.declared.Worksheet.TheVariants.{Junction};
ghost use Rattle.layout.specs.Sheet.{line_count, pair_count, last_from};
ghost use Rattle.page_stars.specs.Stars.{line_at, sum_of, leader as leader_of, in_sum, option_taken, pick_of, is_picked, or_else, deciding};
ghost use Rattle.page_stars.specs.Stars.{line_starred, starred};

use layout::{EB, NB, SB, WB, Worksheet};

// What a cell holds; 0 past the list.
pub fn value_of(cells: &[u32], cell: usize) -> u32
    ensures { result ≡ get_or cells.now cell 0 }
{
    cells.get(cell).copied().unwrap_or(0)
}

// Where the last cells stand.
fn last_from(kind: Worksheet) -> usize
    ensures { (result ≡ last_from kind) × (result ≤ last_from Junction) }
{
    kind.last_from()
}

// A sheet of a kind, whatever its cells hold.
#[derive(Clone, Copy)]
pub struct Sheet<'a> {
    pub kind: Worksheet,
    pub cells: &'a [u32],
}

impl Sheet<'_> {
    // Line n of an approach.
    fn line_at(self, a: usize, n: usize) -> u32
        requires { (a < approach_count) × (0 < n) × (n ≤ line_count self.kind) }
        ensures { result ≡ line_at self.entry.kind self.entry.cells.now a n }
    {
        value_of(
            self.cells,
            layout::LINES_FROM + self.kind.lines() * a + (n - 1),
        )
    }

    // The time of an approach's left and the through opposite it.
    fn sum_of(self, a: usize, o: usize) -> u64
        requires { (a < approach_count) × (o < approach_count) }
        ensures { result ≡ sum_of self.entry.kind self.entry.cells.now a o }
    {
        self.line_at(a, 16) as u64 + self.line_at(o, 17) as u64
    }

    // The approach of a pair whose left is in the larger sum; the first on a tie.
    #[tactic(auto, unfolding(crate::specs::Stars::leader))]
    fn leader(self, pair: usize) -> usize
        requires { pair < pair_count }
        ensures { result ≡ leader_of self.entry.kind self.entry.cells.now pair }
    {
        let first = layout::IN_PAIR * pair;
        let second = first + 1;
        let other = self.sum_of(second, first);
        if other <= self.sum_of(first, second) {
            return first;
        }
        second
    }

    // Whether line n of an approach is in the larger sum, where protected is allowed.
    #[tactic(auto, unfolding(crate::specs::Stars::in_sum))]
    fn is_in_sum(self, a: usize, n: usize) -> bool
        requires { a < approach_count }
        ensures { result ≡ in_sum self.entry.kind self.entry.cells.now a n }
    {
        let pair = a / layout::IN_PAIR;
        if value_of(
            self.cells,
            self.kind.pairs_from() + self.kind.pair_cells() * pair,
        ) == layout::BLANK
        {
            return false;
        }
        if a == self.leader(pair) {
            return n == 16;
        }
        n == 17
    }

    // Which of lines 23 and 24 line 25 takes, the first on a tie. A single point has no such lines.
    #[tactic(auto, unfolding(crate::specs::Stars::option_taken))]
    fn option_taken(self, a: usize) -> Option<usize>
        requires { a < approach_count }
        ensures { result ≡ option_taken self.entry.kind self.entry.cells.now a }
    {
        let Worksheet::Junction = self.kind else {
            return None;
        };
        let lesser = self.line_at(a, 25);
        if lesser == layout::BLANK || lesser == 0 {
            return None;
        }
        if self.line_at(a, 23) == lesser {
            return Some(23);
        }
        Some(24)
    }

    #[tactic(auto, unfolding(crate::specs::Stars::line_starred))]
    fn is_line_starred(self, a: usize, n: usize) -> bool
        requires { (a < approach_count) × (0 < n) }
        ensures { result ≡ line_starred self.entry.kind self.entry.cells.now a n }
    {
        self.is_in_sum(a, n) || self.option_taken(a) == Some(n)
    }

    // Which total of a pair is picked; a single point's pair has one.
    #[tactic(auto, unfolding(crate::specs::Stars::pick_of))]
    fn pick_of(self, pair: usize) -> u32
        requires { pair < pair_count }
        ensures { result ≡ pick_of self.entry.kind self.entry.cells.now pair }
    {
        let Worksheet::Junction = self.kind else {
            return 0;
        };
        let pick = layout::PAIRS_FROM + layout::PAIR_CELLS * pair + layout::PICK;
        value_of(self.cells, pick)
    }

    // Whether a total of a pair is the picked one.
    #[tactic(auto, unfolding(crate::specs::Stars::is_picked))]
    fn is_picked(self, pair: usize, total: usize) -> bool
        requires { pair < pair_count }
        ensures { result ≡ is_picked self.entry.kind self.entry.cells.now pair total }
    {
        total < layout::PICK && self.pick_of(pair) as usize == total
    }

    // This cell where it holds the required time, else another.
    fn or_else(self, cell: usize, other: usize) -> usize
        ensures { result ≡ or_else self.entry.kind self.entry.cells.now cell other }
    {
        let required = last_from(self.kind) + layout::APPROACHES + 1;
        if value_of(self.cells, cell) == value_of(self.cells, required) {
            return cell;
        }
        other
    }

    // Where the required time comes from: combined, or else the first of the right totals that is as large.
    #[tactic(auto, unfolding(crate::specs::Stars::deciding))]
    fn deciding_cell(self) -> usize
        ensures { result ≡ deciding self.entry.kind self.entry.cells.now }
    {
        let from = last_from(self.kind);
        let from_nb = self.or_else(from + NB, from + SB);
        let from_wb = self.or_else(from + WB, from_nb);
        let from_eb = self.or_else(from + EB, from_wb);
        self.or_else(from + layout::APPROACHES, from_eb)
    }

    // Whether a cell has a star.
    #[tactic(auto, unfolding(crate::specs::Stars::starred))]
    pub fn is_starred(self, cell: usize) -> bool
        ensures { result ≡ starred self.entry.kind self.entry.cells.now cell }
    {
        let pairs = self.kind.pairs_from();
        let last = self.kind.last_from();
        if cell < layout::LINES_FROM {
            return false;
        }
        if cell < pairs {
            let line = cell - layout::LINES_FROM;
            let lines = self.kind.lines();
            return self.is_line_starred(line / lines, line % lines + 1);
        }
        if cell < last {
            let total = cell - pairs;
            let totals = self.kind.pair_cells();
            return self.is_picked(total / totals, total % totals);
        }
        cell == self.deciding_cell()
    }
}

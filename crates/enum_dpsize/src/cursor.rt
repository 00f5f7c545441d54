ghost use Rattle.std.specs.Prelude.{◌≡◌, ◌+◌, ◌*◌, ◌^◌, ◌<◌, ◌≤◌, [], true, false, length};
ghost use Rattle.pair_stream.specs.Parts.{part};
ghost use Rattle.enum_dpsize.specs.Dpsize.{seq_dpsize, start_at};
ghost use Rattle.enum_dpsize.specs.DpsizeLeft.{IsCursor, NextSizes, is_same, left_at, sizes_rank};
ghost use Rattle.enum_dpsize.specs.Dpsva.{dpsva_probes};
ghost use Rattle.enum_dpsize.specs.DpsvaLeft.{probes_at};

use join_graph::Graph;

/// Where a scan by sizes stands. A row is a set of the smaller size with the sets that are tried as its other side.
#[derive(Clone, Copy, Debug)]
pub struct Cursor {
    /// The size of the union.
    pub size: u32,
    /// The size of the smaller side.
    pub small: u32,
    /// The row at hand.
    pub row: usize,
    /// The next place in it.
    pub next: usize,
}

// Where a row begins.
fn start_at(same: bool, row: usize) -> usize
    requires { row < 2 ^ 63 }
    ensures { result ≡ start_at same row }
{
    if same { row + 1 } else { 0 }
}

// The sizes after these, up to `n`.
fn next_sizes(size: u32, small: u32, n: u32) -> Option<(u32, u32)>
    requires { (small < 2 ^ 30) × (n < 2 ^ 30) }
    ensures { NextSizes size small n result }
{
    if small * 2 + 2 <= size {
        return Some((size, small + 1));
    }
    if size < n {
        return Some((size + 1, 1));
    }
    None
}

impl Cursor {
    /// Before all pairs of the graph.
    pub fn first(graph: &Graph) -> Cursor
        ensures fits { IsCursor graph.now result }
        ensures left { left_at graph.now result ≡ seq_dpsize graph.now }
        ensures probes { probes_at graph.now result ≡ dpsva_probes graph.now }
    {
        let n = graph.n();
        if n == 1 {
            // there is one row, which has no pair
            return Cursor {
                size: 2,
                small: 1,
                row: 1,
                next: 1,
            };
        }
        Cursor {
            size: 2,
            small: 1,
            row: 0,
            next: 1,
        }
    }

    /// Goes to the next row of the same sizes.
    pub fn next_row(&mut self)
        requires small { self.old.small ≤ self.old.size }
        requires row { self.old.row < 2 ^ 62 }
        ensures sizes { (self.new.size ≡ self.old.size) × (self.new.small ≡ self.old.small) }
        ensures row { self.new.row ≡ self.old.row + 1 }
        ensures next { self.new.next ≡ start_at (is_same self.old) (self.old.row + 1) }
    {
        self.row += 1;
        self.next = start_at(self.small == self.size - self.small, self.row);
    }

    /// Goes to the first row of the next sizes, where these have no row left. `false` where there are none.
    pub fn next_sizes(&mut self, graph: &Graph) -> bool
        requires fits { IsCursor graph.now self.old }
        requires over { length (part graph.now self.old.small) ≤ self.old.row }
        ensures fits { IsCursor graph.now self.new }
        ensures left { left_at graph.now self.new ≡ left_at graph.now self.old }
        ensures probes { probes_at graph.now self.new ≡ probes_at graph.now self.old }
        ensures on { result ≡ true → sizes_rank graph.now self.new < sizes_rank graph.now self.old }
        ensures end { result ≡ false → (left_at graph.now self.new ≡ []) × (probes_at graph.now self.new ≡ 0) }
    {
        let n = graph.n();
        match next_sizes(self.size, self.small, n as u32) {
            None => false,
            Some((size, small)) => {
                self.size = size;
                self.small = small;
                self.row = 0;
                self.next = start_at(small == size - small, 0);
                true
            }
        }
    }
}

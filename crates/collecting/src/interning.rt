// Types by rows: an equal one is found, or the row is added where there is room.
ghost use Rattle.std.specs.Prelude.{◌≡◌, false, ◌||◌, [], ◌∷◌, ◌++◌, ltb, ◌+◌, ◌≤◌, ◌<◌, length, take, drop, Some, MatchOption, IfSome};
ghost use Rattle.collecting.specs.Rows.{same_numbers, same_row, find};
ghost use Rattle.collecting.specs.Bounded.{keep, raise};
ghost use Rattle.collecting.specs.Arrays.{row_by, row_at, rows_at, Offered, Standing, kept_of};

// A row by its kind, a number as in the description (`row_by`): of a basic type with its code, of an array with its element's number and its count, of a group with its members. Only a group has a run.
#[derive(Clone, Copy)]
pub struct Row<'a> {
    pub kind: u8,
    pub second: u8,
    pub count: usize,
    pub run: &'a [u8],
    ghost offered: { Offered kind count run.now },
}

// So many types, and the members of all of them, one run behind the other. A list for each part of a row: `rows_at` and `Standing` are by these lists.
#[derive(Drop)]
pub struct Rows {
    pub kinds: [u8; 64],
    pub seconds: [u8; 64],
    pub counts: [usize; 64],
    pub members: [u8; 255],
    pub types: usize,
    pub used: usize,
    ghost standing: { Standing kinds seconds counts members types used },
}

// Whether the members from place a on are this run.
fn same_run(members: &[u8], a: usize, run: &[u8]) -> bool
    requires { a + length run.now ≤ length members.now }
    ensures { result ≡ same_numbers (take (length run.now) (drop a members.now)) run.now }
{
    for i in 0..run.len() {
        if members[a + i] != run[i] {
            return false;
        }
    }
    true
}

// The run, from place m on.
fn copy_run(members: &mut [u8], m: usize, run: &[u8])
    requires { m + length run.now ≤ length members.old }
    ensures { (length members.new ≡ length members.old) × (take (m + length run.now) members.new ≡ take m members.old ++ run.now) }
{
    members[m..m + run.len()].copy_from_slice(run);
}

impl Rows {
    // Whether row k is this row.
    fn is_row(&self, k: usize, row: &Row) -> bool
        requires { k < self.now.types }
        ensures { result ≡ same_row (row_at self.now.kinds self.now.seconds self.now.counts self.now.members k) (row_by row.now.kind row.now.second row.now.count row.now.run.now) }
    {
        if self.kinds[k] != row.kind {
            return false;
        }
        if row.kind == 0 {
            return self.seconds[k] == row.second;
        }
        if self.counts[k] != row.count {
            return false;
        }
        if row.kind == 1 {
            return self.seconds[k] == row.second;
        }
        same_run(&self.members, usize::from(self.seconds[k]), row.run)
    }

    // The place of an equal row.
    pub fn find(&self, row: &Row) -> Option<usize>
        ensures { MatchOption result
            (self.now.types ≡ find (rows_at self.now.kinds self.now.seconds self.now.counts self.now.members self.now.types) (row_by row.now.kind row.now.second row.now.count row.now.run.now))
            (λ k. (k < self.now.types) × (k ≡ find (rows_at self.now.kinds self.now.seconds self.now.counts self.now.members self.now.types) (row_by row.now.kind row.now.second row.now.count row.now.run.now))) }
    {
        for k in 0..self.types {
            if self.is_row(k, row) {
                return Some(k);
            }
        }
        None
    }

    // Whether one row more, with so many members more, is too much.
    fn crowded(&self, more: usize) -> bool
        requires { more ≤ 4096 }
        ensures { result ≡ (ltb 64 (self.now.types + 1) || ltb 255 (self.now.used + more)) }
    {
        64 < self.types + 1 || 255 < self.used + more
    }

    // One row more: a group's run begins behind the members before it.
    fn add(&mut self, row: &Row)
        requires { (self.old.types < 64) × (self.old.used + length row.now.run.now ≤ 255) }
        ensures { (self.new.types ≡ self.old.types + 1)
            × (rows_at self.new.kinds self.new.seconds self.new.counts self.new.members self.new.types
            ≡ rows_at self.old.kinds self.old.seconds self.old.counts self.old.members self.old.types ++ row_by row.now.kind row.now.second row.now.count row.now.run.now ∷ []) }
    {
        let types = self.types;
        let used = self.used;
        let second = second_of(row.kind, row.second, used);
        self.kinds[types] = row.kind;
        self.seconds[types] = second;
        self.counts[types] = row.count;
        copy_run(&mut self.members, used, row.run);
        self.used += row.run.len();
        self.types += 1;
    }

    // The number of a type: of the row that is equal, or of the next; none where there are too many types or members.
    pub fn intern(&mut self, row: &Row) -> Option<usize>
        ensures kept { kept_of result (rows_at self.new.kinds self.new.seconds self.new.counts self.new.members self.new.types)
            ≡ keep false (rows_at self.old.kinds self.old.seconds self.old.counts self.old.members self.old.types) (row_by row.now.kind row.now.second row.now.count row.now.run.now) }
        ensures low { IfSome result (λ k. k < 64) }
    {
        if let Some(k) = self.find(row) {
            return Some(k);
        }
        if self.crowded(row.run.len()) {
            return None;
        }
        let number = self.types;
        self.add(row);
        Some(number)
    }

    // Arrays of the type with this number: the sizes, the outermost first; the innermost is the first to be completed.
    pub fn raise(&mut self, number: usize, sizes: &[usize]) -> Option<usize>
        requires { number ≤ 64 }
        ensures { kept_of result (rows_at self.new.kinds self.new.seconds self.new.counts self.new.members self.new.types)
            ≡ raise sizes.now (kept_of (Some number) (rows_at self.old.kinds self.old.seconds self.old.counts self.old.members self.old.types)) }
    {
        let mut element = number;
        for i in (0..sizes.len()).rev() {
            let array = Row {
                kind: 1,
                second: element as u8,
                count: sizes[i],
                run: &[],
            };
            element = self.intern(&array)?;
        }
        Some(element)
    }
}

// The second byte: a group's run begins in place m.
fn second_of(kind: u8, second: u8, m: usize) -> u8
    requires { m ≤ 255 }
    ensures { (kind ≤ 1 → result ≡ second) × (2 ≤ kind → result ≡ m) }
{
    if kind < 2 { second } else { m as u8 }
}

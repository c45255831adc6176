// The symbols that are still to come, on a stack: the first is the last in it. Nothing is left on the machine's stack for each level of a text.
ghost use Rattle.std.specs.Prelude.{◌≡◌, [], ◌++◌, ◌+◌, ◌≤◌, ◌<◌, get_or};
ghost use Rattle.grammar.specs.Machine.{live, feed, finish, is_ended};
ghost use Rattle.grammar.specs.Prototype.{declarations, prototype, types};
ghost use Rattle.reading.specs.Productions.{productions};
ghost use Rattle.reading.specs.Coded.{counted};
ghost use Rattle.reading.specs.Code.{tops, takes, LeadsTo};

use crate::tables;

// The first `depth` cells hold them, each by its number in the grammar (`declarations`).
#[derive(Drop)]
pub struct Symbols {
    pub cells: [u8; 16400],
    pub depth: usize,
    ghost within: { depth ≤ 16400 },
}

impl Symbols {
    // The place of the symbol that takes a token of kind k, counted from the bottom.
    fn taker(&self, k: usize) -> Option<usize>
        requires { k < 48 }
        ensures { (counted result ≡ takes declarations self.now.cells self.now.depth k) × (counted result ≤ self.now.depth) }
    {
        for place in (0..self.depth).rev() {
            let symbol = self.cells[place];
            if tables::rule(symbol, k).is_some() {
                return Some(place);
            }
            if !tables::may_lack(symbol) {
                return None;
            }
        }
        None
    }

    // Whether a token of kind k may come next.
    pub fn may_come(&self, k: usize) -> bool
        requires { k < 48 }
        ensures { result ≡ live (feed declarations (tops self.now.cells self.now.depth) k) }
    {
        self.taker(k).is_some()
    }

    // The symbols of a production above the first `base`, the first on top.
    fn push(&mut self, base: usize, p: usize)
        requires { (base + 5 ≤ 16400) × (p < 160) }
        ensures { (tops self.new.cells self.new.depth ≡ get_or productions p [] ++ tops self.old.cells base) × (self.new.depth ≤ base + 5) }
    {
        let count = tables::count(p);
        for j in 0..count {
            self.cells[base + j] = tables::symbol_at(p, count - 1 - j);
        }
        self.depth = base + count;
    }

    // Whether a token of kind k may come: then the symbols are those to come behind it.
    pub fn lead(&mut self, k: usize) -> bool
        requires { (self.old.depth + 5 ≤ 16400) × (k < 48) }
        ensures { LeadsTo (feed declarations (tops self.old.cells self.old.depth) k) result self.new.cells self.new.depth × (self.new.depth ≤ self.old.depth + 4) }
    {
        let Some(place) = self.taker(k) else {
            return false;
        };
        let Some(p) = tables::rule(self.cells[place], k) else {
            return false;
        };
        self.push(place, p);
        true
    }

    // Whether the symbols to come may all be left out.
    pub fn may_end(&self) -> bool
        ensures { result ≡ is_ended (finish declarations (tops self.now.cells self.now.depth)) }
    {
        for place in (0..self.depth).rev() {
            if !tables::may_lack(self.cells[place]) {
                return false;
            }
        }
        true
    }

    // The symbols of a declaration, the first on top.
    pub fn start_prototype(&mut self)
        ensures { (tops self.new.cells self.new.depth ≡ prototype) × (self.new.depth ≡ 6) }
    {
        self.cells[0] = 81;
        self.cells[1] = 79;
        self.cells[2] = 78;
        self.cells[3] = 77;
        self.cells[4] = 75;
        self.cells[5] = 74;
        self.depth = 6;
    }

    // The symbol of a list of types.
    pub fn start_types(&mut self)
        ensures { (tops self.new.cells self.new.depth ≡ types) × (self.new.depth ≡ 1) }
    {
        self.cells[0] = 82;
        self.depth = 1;
    }
}

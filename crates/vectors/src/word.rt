// What the word of a line asks.
#[derive(Clone, Copy)]
pub enum Word {
    // Whether each move has a block.
    Load(bool),
    Change(Asks),
    Preview(Asks),
    List(List),
    Rank,
    Hours,
    Address(Address),
    Pair(Pair),
    // A tree is no call, the others ask calls that are not there yet.
    Passed,
}

#[derive(Clone, Copy)]
pub enum Kind {
    Enter,
    Withdraw,
    Recost,
}

// Which change, whether its move has a block, and whether the nodes opened are told.
#[derive(Clone, Copy)]
pub struct Asks {
    pub kind: Kind,
    pub block: bool,
    pub opened: bool,
}

#[derive(Clone, Copy)]
pub enum List {
    All,
    Band,
    OnK,
    Chosen,
}

#[derive(Clone, Copy)]
pub enum Address {
    Address,
    Costs,
    Region,
}

#[derive(Clone, Copy)]
pub enum Pair {
    Less,
    Dominates,
    Drawn,
}

fn change(kind: Kind, opened: bool) -> Word {
    Word::Change(Asks {
        kind,
        block: false,
        opened,
    })
}

fn preview(kind: Kind) -> Word {
    Word::Preview(Asks {
        kind,
        block: false,
        opened: true,
    })
}

fn letter(b: u8) -> Option<Word> {
    Some(match b {
        b'L' => Word::Load(false),
        b'E' => change(Kind::Enter, false),
        b'W' => change(Kind::Withdraw, false),
        b'X' => change(Kind::Withdraw, true),
        b'C' => change(Kind::Recost, false),
        b'Q' => Word::List(List::All),
        b'B' => Word::List(List::Band),
        b'O' => Word::List(List::OnK),
        b'S' => Word::List(List::Chosen),
        b'K' => Word::Rank,
        b'D' => Word::Pair(Pair::Less),
        b'M' => Word::Pair(Pair::Dominates),
        b'N' => Word::Pair(Pair::Drawn),
        b'T' => Word::Passed,
        _ => return None,
    })
}

fn two_letters(a: u8, b: u8) -> Option<Word> {
    Some(match (a, b) {
        (b'P', b'E') => preview(Kind::Enter),
        (b'P', b'W') => preview(Kind::Withdraw),
        (b'P', b'C') => preview(Kind::Recost),
        (b'H', b'O') => Word::Hours,
        (b'A', b'2') => Word::Address(Address::Address),
        (b'U', b'2') => Word::Address(Address::Costs),
        (b'R', b'2') => Word::Address(Address::Region),
        (b'S', b'F') | (b'W', b'H') => Word::Passed,
        _ => return None,
    })
}

impl Word {
    // Gives what a word of these last bytes asks, zeros before a shorter one; none if nothing that
    // is known. A B behind the word of a line with moves says that they have blocks.
    pub fn of(bytes: [u8; 3]) -> Option<Word> {
        match bytes {
            [0, 0, b] => letter(b),
            [0, a, b'B'] => letter(a)?.with_block(),
            [0, a, b] => two_letters(a, b),
            [a, b, b'B'] => two_letters(a, b)?.with_block(),
            _ => None,
        }
    }

    // Behind a word without moves that B asks the last call of its kind.
    fn with_block(self) -> Option<Word> {
        match self {
            Word::Load(_) => Some(Word::Load(true)),
            Word::Change(x) => Some(Word::Change(Asks {
                kind: x.kind,
                block: true,
                opened: false,
            })),
            Word::Preview(x) => Some(Word::Preview(Asks {
                kind: x.kind,
                block: true,
                opened: true,
            })),
            Word::List(_) => Some(Word::List(List::Chosen)),
            Word::Rank => Some(Word::Rank),
            Word::Hours => Some(Word::Hours),
            Word::Address(_) => Some(Word::Address(Address::Region)),
            Word::Pair(_) => Some(Word::Pair(Pair::Drawn)),
            Word::Passed => None,
        }
    }
}

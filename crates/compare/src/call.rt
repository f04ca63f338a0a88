// The calls that the runs make on both boards.
use crate::table::Row;
use rows::ROW;
use zorder::COSTS;

// A change; a list; or a load to be refused, of a board of this size.
#[derive(Clone, Copy)]
pub enum Call {
    Change(Change),
    Read(Read),
    Load(usize),
}

// A change, and the rows lent.
#[derive(Clone, Copy)]
pub struct Change {
    pub asked: planning::Change,
    pub lent: usize,
}

// One of the lists, with the rows lent.
#[derive(Clone, Copy)]
pub struct Read {
    pub query: Query,
    pub lent: usize,
}

// The list; a band of so many; a rank of so many; on so many costs; on a set of costs; and the
// list at a minute, where a block may have bad hours.
#[derive(Clone, Copy)]
pub enum Query {
    List,
    Band(usize),
    Rank(usize),
    OnK(usize),
    Chosen(usize),
    Hours(usize, Option<usize>),
}

impl Change {
    // Gives the row that is to stand, if one is.
    pub fn coming(self) -> Option<Row> {
        let coming = self.asked.coming()?;
        let mut r = [0u16; ROW];
        r[1] = coming.number;
        for j in 0..COSTS {
            r[2 + j] = coming.costs[j];
        }
        Some(r)
    }

    // Gives the letter that a change is printed by.
    pub fn letter(self) -> u8 {
        match self.asked {
            planning::Change::Enter {
                coming: _,
                block: _,
            } => b'e',
            planning::Change::Withdraw { number: _ } => b'w',
            planning::Change::Recost {
                coming: _,
                block: _,
            } => b'c',
        }
    }
}

impl Query {
    fn letter(self) -> u8 {
        match self {
            Query::List => b'Q',
            Query::Band(_) => b'B',
            Query::Rank(_) => b'R',
            Query::OnK(_) => b'K',
            Query::Chosen(_) => b'S',
            Query::Hours(_, _) => b'Y',
        }
    }
}

impl Call {
    // Says whether it is a change.
    pub fn changes(self) -> bool {
        matches!(self, Call::Change(_))
    }

    // Says whether it reads the list.
    pub fn lists(self) -> bool {
        matches!(
            self,
            Call::Read(Read {
                query: Query::List,
                ..
            })
        )
    }

    // Gives the letter that a call is printed by, which is also its cell of the tallies.
    pub fn letter(self) -> u8 {
        match self {
            Call::Change(x) => x.letter(),
            Call::Read(q) => q.query.letter(),
            Call::Load(_) => b'L',
        }
    }
}

// A board in lent memory, for its readers: the bytes with their head, which says how they are read.
// Writers have the bytes and C alone.
ghost use Rattle.std.specs.Prelude.{◌≡◌, ◌<◌, ℕ, eqb, get_or};
ghost use Rattle.dominance.specs.Move.{as_move};
ghost use Rattle.promises.specs.Layout.{number_in, height_in, flag_in, block_in, costs_in, move_in};
ghost use Rattle.memory.specs.Room.{Readable};
ghost use Rattle.zorder.specs.Address.{row_costs};

use crate::fields;
use crate::head::Head;
use dominance::Move;
use zorder::COSTS;

#[derive(Clone, Copy)]
pub struct Board<'a> {
    pub bytes: &'a [u8],
    pub head: Head,
    ghost readable: { Readable head bytes.now },
    ghost fits: { (i : ℕ) → get_or bytes.now i 0 < 256 },
}

impl<'a> Board<'a> {
    // Reads the number of the move at place i.
    pub fn number_at(&self, i: usize) -> u16
        requires { i < self.now.head.count }
        ensures { (result ≡ number_in self.now.head.size self.now.bytes.now i)
            × (result < self.now.head.size) }
    {
        fields::number_at(self.bytes, self.head.size, i)
    }

    // Reads the highest level of the nodes that start at place i, 0 where none does.
    pub fn height_at(&self, i: usize) -> u8
        requires { i < self.now.head.size }
        ensures { result ≡ height_in self.now.head.size self.now.bytes.now i }
    {
        fields::height_at(self.bytes, self.head.size, i)
    }

    // Says whether the move of a number is flagged as listed.
    pub fn is_listed(&self, number: u16) -> bool
        requires { number < self.now.head.size }
        ensures { result ≡ eqb (flag_in self.now.head.size self.now.bytes.now number) 1 }
    {
        fields::is_listed(self.bytes, self.head.size, number)
    }

    // Reads the block of a number's move.
    pub fn block_of(&self, number: u16) -> u8
        requires { number < self.now.head.size }
        ensures { result ≡ block_in self.now.head.size self.now.bytes.now number }
    {
        fields::block_of(self.bytes, self.head.size, number)
    }

    // Reads the costs of a number's move.
    pub fn costs_of(&self, number: u16) -> [u16; COSTS]
        requires { number < self.now.head.size }
        ensures { result ≡ costs_in self.now.head.size self.now.head.dimension
            self.now.bytes.now number }
    {
        fields::costs_of(self.bytes, self.head.size, self.head.dimension, number)
    }

    // Reads all words of a number's row, also those past d.
    pub fn words_of(&self, number: u16) -> [u16; COSTS]
        requires { number < self.now.head.size }
        ensures { result ≡ costs_in self.now.head.size row_costs self.now.bytes.now number }
    {
        fields::costs_of(self.bytes, self.head.size, COSTS, number)
    }

    // Gives the costs of the move at place i.
    pub fn costs_at(&self, i: usize) -> [u16; COSTS]
        requires { i < self.now.head.count }
        ensures { result ≡ (move_in self.now.head.size self.now.head.dimension
            self.now.bytes.now i).costs }
    {
        self.costs_of(self.number_at(i))
    }

    // Gives the move at place i.
    pub fn move_at(&self, i: usize) -> Move
        requires { i < self.now.head.count }
        ensures { as_move result ≡ move_in self.now.head.size self.now.head.dimension
            self.now.bytes.now i }
    {
        fields::move_at(self.bytes, self.head.size, self.head.dimension, i)
    }
}

// The change itself, made on sound memory: no rows and no 8.
ghost use Rattle.dominance.specs.Move.{as_move};
ghost use Rattle.planning.specs.Change as spec;
ghost use Rattle.planning.specs.Plan as plan;

use dominance::Move;
use memory::{Head, set_block, set_costs, set_count, set_listed};
use planning::{Change, ChangePlan};
use tree::{enter_line, with_rows, withdraw_line};
use upkeep::{Upkeep, set_flags};

fn make_enter(m: &mut [u8], h: Head, x: Move, u: Upkeep)
    requires { spec.ToEnter h.size h.dimension h.count x u m.old }
    ensures { spec.EnterMade (as_move x) m.old m.new }
{
    let n = h.count;
    let costs = x.costs;
    set_flags(m, h, u);
    set_listed(m, h.size, x.number, u.listed);
    set_costs(m, h.size, x.number, costs);
    enter_line(m, h, x);
    set_count(m, n + 1);
}

fn make_withdraw(m: &mut [u8], h: Head, p: usize, u: Upkeep)
    requires { spec.ToWithdraw h.size h.dimension h.count p u m.old }
    ensures { spec.WithdrawMade h.size p m.old m.new }
{
    let n = h.count;
    set_flags(m, h, u);
    withdraw_line(m, h, p);
    set_count(m, n - 1);
}

fn make_recost(m: &mut [u8], h: Head, p: usize, x: Move, u: Upkeep)
    requires { spec.ToRecost h.size h.dimension h.count p x u m.old }
    ensures { spec.RecostMade (as_move x) m.old m.new }
{
    let n = h.count;
    let costs = x.costs;
    set_flags(m, h, u);
    set_listed(m, h.size, x.number, u.listed);
    withdraw_line(m, h, p);
    set_costs(m, h.size, x.number, costs);
    enter_line(m, with_rows(h, n - 1), x);
    set_count(m, n);
}

// The change of moves that the plan makes, if any.
fn make_moves(m: &mut [u8], p: ChangePlan)
    requires { plan.MovesReady p m.old }
    ensures { plan.MovesMade p m.old m.new }
{
    let Some(places) = p.places else {
        return;
    };
    let h = p.head;
    let u = p.upkeep;
    match p.change {
        Change::Enter { coming, block: _ } => make_enter(m, h, coming, u),
        Change::Withdraw { number: _ } => make_withdraw(m, h, places.goes, u),
        Change::Recost { coming, block: _ } => make_recost(m, h, places.goes, coming, u),
    }
}

// Makes what an accepted plan says: the moves, then the block. A refused one makes nothing.
pub fn carry_out(m: &mut [u8], p: ChangePlan)
    requires { plan.Able p m.old }
    ensures { plan.CarriedOut p m.old m.new }
{
    if p.verdict.is_err() {
        return;
    }
    make_moves(m, p);
    if let Some(block) = p.change.block() {
        set_block(m, p.head.size, p.change.number(), block);
    }
}

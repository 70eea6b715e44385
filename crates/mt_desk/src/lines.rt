//! The lines of a desk, made before the name that tells them.
ghost use Rattle.std.specs.Prelude.{◌≡◌, ◌<◌, ◌≤◌, IfOk, IsOkUnless};

use crate::history::History;
use crate::places::Slot;
use mt_floor::finding::MOST_WATCHERS;
use mt_queue::line::make_line;
use mt_skel::fault::Fault;
use std::alloc::Global;
use std::marker::{Brand, Model, PhantomData};

/// The name of a desk tells which lines and which history it has, so that no two desks have one name, and a watcher or a
/// session of another desk does not fit. Each call of a program picks one, once the lines are made.
pub trait Naming {
    ghost use Rattle.std.specs.Prelude.{List};
    ghost use Rattle.mt_queue.specs.Halves.{LineId};

    ghost lines: { List LineId };

    ghost history: { LineId };
}

impl Naming for Brand {
    ghost use Rattle.std.specs.Prelude.{[]};
    ghost use Rattle.mt_queue.specs.Halves.{no_line};

    ghost lines = { [] };

    ghost history = { no_line };
}

/// Who lets sessions in at the desk of a name. It has no bytes. Only who has the lines of the desk can make one, so a session,
/// which is given none, makes up no other session.
#[derive(Drop)]
pub struct Host<J: Naming> {
    of: PhantomData<J>,
}

/// 64 lines that no desk has yet, the room for as many rows, and a history of nothing.
#[derive(Drop)]
pub struct Lines {
    pub(crate) slots: Vec<Slot>,
    pub(crate) order: Vec<usize>,
    pub(crate) capacity: usize,
    pub(crate) alloc: Global,
    pub(crate) history: History,
}

impl Model for Lines {
    ghost use Rattle.std.specs.Prelude.{◌≡◌, [], map, vec_capacity};
    ghost use Rattle.mt_desk.specs.Places.{LinesView, AreLines, line_of};

    ghost Value = { LinesView };

    ghost view = { λ l. record { lines = map line_of l.slots.items; capacity = l.capacity; history = l.history.table } };

    ghost invariant = { λ l. AreLines l.capacity l.slots.items l.order.items (vec_capacity l.order) × (l.history.log ≡ []) };
}

impl Lines {
    /// 64 lines for `capacity` posts each, 1 to 16,384. Refused as `NoMemory` alone.
    ///
    /// The room for 64 rows, and for the lines that come back, is made here, and the history.
    pub fn new(alloc: Global, capacity: usize) -> Result<Lines, Fault>
        requires { (0 < capacity) × (capacity ≤ 16384) }
        ensures capacity { IfOk result (λ l. l.capacity ≡ capacity) }
        ensures memory { IsOkUnless result Fault.NoMemory }
    {
        let history = History::new(alloc)?;
        let order = Vec::with_capacity(alloc, MOST_WATCHERS)?;
        let mut slots = Vec::with_capacity(alloc, MOST_WATCHERS)?;
        'lines: for _count in 0..MOST_WATCHERS {
            let line = make_line(alloc, capacity)?;
            slots.push(Slot::Parked(line))?;
        }
        Ok(Lines {
            slots,
            order,
            capacity,
            alloc,
            history,
        })
    }

    /// Who lets sessions in at the desk that these lines are for. Takes no memory.
    pub fn host<J: Naming>(&self) -> Host<J>
        requires lines { self.now.lines ≡ J.lines }
        requires history { self.now.history ≡ J.history }
    {
        Host { of: PhantomData }
    }
}

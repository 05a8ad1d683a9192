// The check of a slot's own numbers.
ghost use Rattle.std.specs.Prelude.{◌≡◌, ◌≢◌, ◌&&◌, leb, ltb};
ghost use Rattle.table.specs.Formed.{no_name, no_queue, no_pair, fields_well};
ghost use Rattle.table.specs.OnePass.{generation_well};

use storage::{BOUND, CLOSED, Cell, LAST_GENERATION, LISTENING, Listener, UNBOUND, handles};

#[tactic(auto, unfolding(crate::specs::Formed::no_name))]
fn no_name(cell: Cell) -> bool
    ensures { result ≡ no_name cell }
{
    cell.name == 0
}

#[tactic(auto, using(crate::proofs::OwnNumbers::queue_none))]
fn no_queue(cell: Cell) -> bool
    ensures { result ≡ no_queue cell }
{
    (cell.backlog | cell.head | cell.pending) == 0
}

#[tactic(auto, using(crate::proofs::OwnNumbers::pair_none))]
fn no_pair(cell: Cell) -> bool
    ensures { result ≡ no_pair cell }
{
    let ends = cell.peer | cell.inbox_closed | cell.outbox_closed;
    let queued = ends | cell.byte | cell.written_total | cell.read_total | cell.first | cell.items;
    (queued | cell.waits | cell.place) == 0
}

// "a field that a state does not have 0", of a slot that is not connected. The queue's and the pair's
// are asked before the state, so that they are not kept on the stack for it.
#[tactic(auto, unfolding(crate::specs::Formed::fields_well))]
pub fn fields_well(cell: Cell) -> bool
    requires { cell.tag ≢ 4 }
    ensures { result ≡ fields_well cell }
{
    let no_queue = no_queue(cell);
    let no_pair = no_pair(cell);
    match cell.tag {
        CLOSED => true,
        UNBOUND => no_name(cell) && no_queue && no_pair,
        BOUND => no_queue && no_pair,
        LISTENING => no_pair,
        _ => false,
    }
}

// At most 4,294,967,295; an occupied slot's is 1 or more.
#[tactic(auto, unfolding(crate::specs::OnePass::generation_well))]
pub fn generation_well(cell: Cell) -> bool
    ensures { result ≡ generation_well cell }
{
    cell.generation <= LAST_GENERATION
        && (1 <= cell.generation || !handles::is_occupied(cell.into()))
}

// The numbers of a listening socket.
pub fn listener_ranges(n: usize, listener: Listener) -> bool
    ensures { result ≡ leb listener.name 255 && ltb listener.backlog 4294967296 && ltb listener.head n && leb listener.pending n }
{
    listener.name <= 255
        && listener.backlog < 4294967296
        && listener.head < n
        && listener.pending <= n
}

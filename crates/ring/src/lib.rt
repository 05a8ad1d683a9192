// A queue that goes round in its own lent slice: the slice is the ring. What is queued starts at
// `head`; elements move in at most two straight runs, to the ring's end and from its start. The
// laws are stated over lists of any elements.
// Stays: what may not change. `read` only reads the slice: a struct of it with `head` and how many are queued would ask to write it.
#![tactic(auto)]

ghost use Rattle.std.specs.Prelude.{◌≡◌, ◌+◌, ◌<◌, ◌≤◌, length, replicate};
ghost use Rattle.std.proofs.Math.Seq.{paste};
ghost use Rattle.ring.specs.Ring.{place_of, queued, whole};

// The place `k` of a ring of `c`, where `k` has gone at most once round. To drop the first `k` of
// what is queued from `head` on is to go on from `place(c, head + k)`, whatever the elements.
pub fn place(c: usize, k: usize) -> usize
    requires { k < c + c }
    ensures { (result ≡ place_of c k) × (result < c) }
{
    if k < c { k } else { k - c }
}

// The place behind the `n` that are queued from `head` on: `place(c, head + n)`, where that sum may
// be above `usize::MAX`.
fn place_behind(c: usize, head: usize, n: usize) -> usize
    requires head_in { head < c }
    requires queued_in { n ≤ c }
    ensures { (result ≡ place_of c (head + n)) × (result < c) }
{
    let to_end = c - head;
    if n < to_end { head + n } else { n - to_end }
}

// Stores `src` behind the `n` that are queued from `head` on.
pub fn write<T: Copy>(ring: &mut [T], head: usize, n: usize, src: &[T])
    requires head_in { head < length ring.old }
    requires room { n + length src.now ≤ length ring.old }
    ensures { whole ring.new head ≡ paste (whole ring.old head) n src.now (length src.now) }
{
    // Most pushes have no items.
    if src.is_empty() {
        return;
    }
    let p = place_behind(ring.len(), head, n);
    let room = ring.len() - p;
    let k = src.len();
    if k <= room {
        copy_run(&mut ring[p..p + k], src);
    } else {
        copy_run(&mut ring[p..], &src[..room]);
        copy_run(&mut ring[..k - room], &src[room..]);
    }
}

// Copies to all of `buf` what is queued from `head` on.
pub fn read<T: Copy>(ring: &[T], head: usize, buf: &mut [T])
    requires head_in { head < length ring.now }
    requires enough { length buf.old ≤ length ring.now }
    ensures { buf.new ≡ queued ring.now head (length buf.old) }
{
    // As in `write`.
    if buf.is_empty() {
        return;
    }
    let room = ring.len() - head;
    let k = buf.len();
    if k <= room {
        copy_run(buf, &ring[head..head + k]);
    } else {
        copy_run(&mut buf[..room], &ring[head..]);
        copy_run(&mut buf[room..], &ring[..k - room]);
    }
}

// Stores `v` `k` times behind the `n` that are queued from `head` on.
pub fn fill<T: Copy>(ring: &mut [T], head: usize, n: usize, v: T, k: usize)
    requires head_in { head < length ring.old }
    requires room { n + k ≤ length ring.old }
    ensures { whole ring.new head ≡ paste (whole ring.old head) n (replicate k v) k }
{
    let p = place_behind(ring.len(), head, n);
    let room = ring.len() - p;
    if k <= room {
        fill_run(&mut ring[p..p + k], v);
    } else {
        fill_run(&mut ring[p..], v);
        fill_run(&mut ring[..k - room], v);
    }
}

// All of one straight run is `src`.
// Stays: a slice's `copy_from_slice` is a call of `memmove`, which an archive then needs from outside, and what is used after it is kept on the stack.
fn copy_run<T: Copy>(run: &mut [T], src: &[T])
    requires { length src.now ≡ length run.old }
    ensures { run.new ≡ src.now }
{
    for j in 0..run.len() {
        run[j] = src[j];
    }
}

// All of one straight run is `v`. A slice's own `fill` asks that a clone of `v` cannot fail, which
// `T: Copy` does not say.
fn fill_run<T: Copy>(run: &mut [T], v: T)
    ensures { run.new ≡ replicate (length run.old) v }
{
    for x in run.iter_mut() {
        *x = v;
    }
}

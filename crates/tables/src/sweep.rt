// The sweeps of a pass: every production has its turn, over and over, until nothing is added.
ghost use Rattle.std.specs.Prelude.{◌≡◌, ℕ, suc, ◌<◌, ◌≤◌, length};
ghost use Rattle.tables.specs.Memory.{Fine, Turned};
ghost use Rattle.tables.specs.Sweep.{Steps, Lawful, Served, Marked, AllServed, AllMarked, Closed, total, Attended, Swept};

use members::Full;

// A mark for each production, by which a visit is spared.
const MARKS: usize = book::limits::MAX_PRODUCTIONS as usize;

// What a pass does for a production.
pub trait Pass {
    ghost steps: { Self → Steps };

    fn productions(&self) -> usize
        requires { Lawful (steps self.now) }
        ensures { result ≡ (steps self.now).prods };

    // One more than the number of members that the kinds which production p watches have together.
    fn watched(&self, p: usize, counts: &[u8]) -> u16
        requires { let q = steps self.now in Lawful q × (p < q.prods) × (q.kinds ≤ length counts.now) }
        ensures { let q = steps self.now in result ≡ suc (total counts.now (q.watch p) (q.watches p)) };

    // All that production p's steps give for the sets as they stand, put into the sets.
    fn serve(&self, p: usize, sets: &mut [u32], counts: &mut [u8]) -> Result<bool, Full>
        requires { let q = steps self.now in Lawful q × (p < q.prods) × Fine q.kinds q.may sets.old counts.old }
        ensures { let q = steps self.now in
            Turned q.kinds q.may (Served q p sets.old counts.old sets.new counts.new) sets.old counts.old sets.new counts.new result };
}

// Production p's turn in a sweep. It is passed over where the kinds that it watches have no more members than at its last visit: all that it gives
// is in.
fn attend<P: Pass>(
    pass: &P,
    p: usize,
    mark: &mut u16,
    sets: &mut [u32],
    counts: &mut [u8],
) -> Result<bool, Full>
    requires { let q = P.steps pass.now in Lawful q × (p < q.prods) × Fine q.kinds q.may sets.old counts.old
        × Marked q p mark.old sets.old counts.old }
    ensures { let q = P.steps pass.now in
        Attended q.kinds q.may (Served q p sets.old counts.old sets.new counts.new) (Marked q p mark.new)
        sets.old counts.old sets.new counts.new result }
{
    let watched = pass.watched(p, counts);
    if *mark == watched {
        return Ok(false);
    }
    *mark = watched;
    pass.serve(p, sets, counts)
}

// All productions in order.
fn sweep<P: Pass>(
    pass: &P,
    marks: &mut [u16],
    sets: &mut [u32],
    counts: &mut [u8],
) -> Result<bool, Full>
    requires { let q = P.steps pass.now in Lawful q × (length marks.old ≡ q.prods)
        × Fine q.kinds q.may sets.old counts.old × AllMarked q marks.old sets.old counts.old }
    ensures { let q = P.steps pass.now in
        Attended q.kinds q.may (AllServed q sets.old counts.old sets.new counts.new) (AllMarked q marks.new)
        sets.old counts.old sets.new counts.new result }
{
    let mut added = false;
    for (p, mark) in marks.iter_mut().enumerate() {
        added |= attend(pass, p, mark, sets, counts)?;
    }
    Ok(added)
}

// Sweeps until one adds nothing.
pub fn close<P: Pass>(pass: &P, sets: &mut [u32], counts: &mut [u8]) -> Result<(), Full>
    requires { let q = P.steps pass.now in Lawful q × Fine q.kinds q.may sets.old counts.old }
    ensures { let q = P.steps pass.now in
        Swept q.kinds q.may (Closed q sets.new counts.new) sets.old counts.old sets.new counts.new result }
{
    let mut marks = [0u16; MARKS];
    let marks = &mut marks[..pass.productions()];
    while sweep(pass, marks, sets, counts)? {}
    Ok(())
}

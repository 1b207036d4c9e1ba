// What is told of each node: three places, its plausible rank, its feasible rank and its down entry.
ghost use Rattle.std.specs.Prelude.{◌≡◌, ◌++◌, ◌*◌, ◌≤◌, length, drop};
ghost use Rattle.numbering.specs.Giving.{rows};

use super::nodes::Node;

pub fn tell(known: &[Node], nodes: &mut [u64])
    requires { 3 * length known.now ≤ length nodes.old }
    ensures { nodes.new ≡ rows known.now ++ drop (3 * length known.now) nodes.old }
{
    for (i, node) in known.iter().enumerate() {
        let at = 3 * i;
        nodes[at..at + 3].copy_from_slice(&[
            node.plausible.0 as u64,
            node.feasible.0 as u64,
            node.entry,
        ]);
    }
}

ghost use Rattle.std.specs.Prelude.{◌≡◌, ◌<◌, ◌+◌, ◌^◌, length};
ghost use Rattle.hg_life.specs.NodeView.{kept_of, node_rows};
ghost use Rattle.hg_world.specs.World.{IsMemberOf};
ghost use Rattle.register.specs.Replicas.{after_payload, after_row, register_at, register_in};

use hg_model::Member;
use hg_node::Node;
use hg_sign::SharedTable;
use hg_world::World;

/// A register: its value, at first 0, and how many writes were done and how many skipped.
#[derive(Clone, Copy, Debug, PartialEq, Eq)]
pub struct Register {
    pub value: u8,
    pub done: u64,
    pub skipped: u64,
}

/// The register after the payload of one event more. A payload that is no write is skipped, an empty one asks for nothing.
fn after_payload(register: Register, payload: &[u8]) -> Register
    requires { register.done + register.skipped + 1 < 2 ^ 64 }
    ensures { result ≡ after_payload register payload.now }
{
    let Register {
        value,
        done,
        skipped,
    } = register;
    match payload {
        [] => register,
        [old, new] if *old == value => Register {
            value: *new,
            done: done + 1,
            skipped,
        },
        _ => Register {
            value,
            done,
            skipped: skipped + 1,
        },
    }
}

/// The register after one event more of a node.
fn after_event(register: Register, node: &Node<SharedTable>, place: usize) -> Register
    requires place { place < length (node_rows node.now) }
    requires few { register.done + register.skipped + 1 < 2 ^ 64 }
    ensures { result ≡ after_row (node_rows node.now) register place }
{
    let row = node.row(place);
    after_payload(register, row.payload.as_slice())
}

/// The register of the order that a node keeps: one fold over the payloads of its events.
fn register_of(node: &Node<SharedTable>) -> Register
    ensures { result ≡ register_in (node_rows node.now) (kept_of node.now) }
{
    let mut register = Register {
        value: 0,
        done: 0,
        skipped: 0,
    };
    for placed in node.kept() {
        register = after_event(register, node, placed.place);
    }
    register
}

/// The register of the order that a member's node keeps.
pub fn register_at(world: &World, member: Member) -> Register
    requires { IsMemberOf world.now member }
    ensures { result ≡ register_at world.now member }
{
    register_of(world.node(member))
}

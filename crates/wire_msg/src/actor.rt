ghost use Rattle.std.specs.Prelude.{◌≡◌};
ghost use Rattle.wire_msg.specs.Nodes.{node_number};

/// Who takes a message. Replicas and proxies are numbered from 0.
#[derive(Clone, Copy, Debug, PartialEq, Eq)]
pub enum Actor {
    /// The replica that stands in the centre of this number, below 16.
    Replica(u8),
    Directory,
    /// Below 64.
    Proxy(u8),
}

/// The number of an actor on a link: replicas have 0 to 15, the directory 16, proxies 32 to 95.
pub fn node_of(actor: Actor) -> u16
    ensures { result ≡ node_number actor }
{
    match actor {
        Actor::Replica(number) => u16::from(number),
        Actor::Directory => 16,
        Actor::Proxy(number) => 32 + u16::from(number),
    }
}

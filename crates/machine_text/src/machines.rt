use span_base::DcId;
use std::marker::Model;

/// What stands for the machines of a centre past the last.
const NO_MACHINE: Machine = Machine {
    price: 0,
    capacity: 1,
    digits: 1,
};

/// The machines that a centre offers, all of one kind.
#[derive(Clone, Copy, Debug, PartialEq, Eq)]
pub struct Machine {
    /// What one costs in a billing period, in pico-dollars, at most 10^9.
    pub price: u64,
    /// How many units of load one bears, 1 to 10^6.
    pub capacity: u32,
    /// How many binary digits their number has at most, 1 to 10.
    pub digits: u8,
}

/// The machines on offer in each centre, in the world's order, and the unit in which requests are
/// counted.
#[derive(Debug, Drop)]
pub struct Machines {
    unit: u64,
    each: Vec<Machine>,
}

impl Model for Machines {
    ghost use Rattle.machine_text.specs.Machines.{Fleet, IsFleetWithin};

    ghost Value = { Fleet };

    ghost view = { λ m. record { unit = m.unit; each = m.each.items } };

    ghost invariant = { λ m. IsFleetWithin (record { unit = m.unit; each = m.each.items }) };
}

impl Machines {
    ghost use Rattle.std.specs.Prelude.{◌≡◌, ◌^◌, ◌≤◌};
    ghost use Rattle.machine_text.specs.Machines.{IsFleetWithin, IsMachineWithin, machine_of};

    /// The machines of these numbers. It takes no memory.
    pub(crate) fn make(unit: u64, each: Vec<Machine>) -> Machines
        requires { IsFleetWithin (record { unit = unit; each = each.items }) }
        ensures { result ≡ record { unit = unit; each = each.items } }
    {
        Machines { unit, each }
    }

    /// How many requests make one unit of load, 1 to 10^9.
    pub fn unit(&self) -> u64
        ensures unit { result ≡ self.now.unit }
        ensures some { 1 ≤ result }
        ensures within { result ≤ 10 ^ 9 }
        ensures all { IsFleetWithin self.now }
    {
        self.unit
    }

    /// The machines of a centre: past the last, one that costs nothing and bears one unit.
    pub fn machine(&self, dc: DcId) -> Machine
        ensures machine { result ≡ machine_of self.now dc.0 }
        ensures within { IsMachineWithin result }
    {
        let dc = usize::from(dc.0);
        if dc < self.each.len() {
            self.each[dc]
        } else {
            NO_MACHINE
        }
    }
}

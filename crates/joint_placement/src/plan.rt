use span_base::Policy;
use std::marker::Model;

/// A policy for each set of a world, and how many machines each centre has, both in the world's order.
#[derive(Debug, Drop)]
pub struct JointPlan {
    policies: Vec<Policy>,
    machines: Vec<u128>,
}

impl Model for JointPlan {
    ghost use Rattle.joint_placement.specs.JointPlans.{JointPlan};

    ghost Value = { JointPlan };

    ghost view = { λ p. record { policies = p.policies.items; machines = p.machines.items } };
}

impl JointPlan {
    ghost use Rattle.std.specs.Prelude.{◌≡◌};

    /// The plan of these policies and numbers of machines, whatever they are. It takes no memory.
    pub fn make(policies: Vec<Policy>, machines: Vec<u128>) -> JointPlan
        ensures { result ≡ record { policies = policies.items; machines = machines.items } }
    {
        JointPlan { policies, machines }
    }

    /// The policy of each set.
    pub fn policies(&self) -> &[Policy]
        ensures { result.now ≡ self.now.policies }
    {
        self.policies.as_slice()
    }

    /// How many machines each centre has.
    pub fn machines(&self) -> &[u128]
        ensures { result.now ≡ self.now.machines }
    {
        self.machines.as_slice()
    }
}

// The description of a tree, as it is told class by class and flow by flow.
ghost use Rattle.std.specs.Prelude.{◌≡◌, ◌<◌};
ghost use Rattle.class_desk.specs.Desk.{no_plan, class_more, hung};

use plans::Plan;

// Nothing is described yet.
pub(crate) fn no_plan() -> Plan
    ensures { result ≡ no_plan }
{
    Plan {
        count: 0,
        parents: [0; 31],
        weights: [0; 31],
        classes: [31; 16],
    }
}

// One class more; of more than 31 it is only kept that they are more, so that no tree of them is set up.
pub(crate) fn class_more(mut plan: Plan, parent: u64, weight: u64) -> Plan
    ensures { result ≡ class_more plan parent weight }
{
    if 31 <= plan.count {
        return Plan { count: 32, ..plan };
    }
    let class = plan.count as usize;
    plan.parents[class] = parent;
    plan.weights[class] = weight;
    plan.count += 1;
    plan
}

// A flow hangs from a class.
pub(crate) fn hung(mut plan: Plan, flow: u64, class: u64) -> Plan
    requires { flow < 16 }
    ensures { result ≡ hung plan flow class }
{
    plan.classes[flow as usize] = class;
    plan
}

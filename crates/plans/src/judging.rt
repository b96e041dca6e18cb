// Whether a description keeps the rules of a tree.
ghost use Rattle.std.specs.Prelude.{◌≡◌};
ghost use Rattle.plans.specs.Plans.{not_lower, deeper, bad_class, bad_flow, broken};
ghost use Rattle.plans.specs.Numbered.{any_from};

use crate::Plan;

// Whether a description breaks a rule.
#[tactic(auto, unfolding(crate::specs::Plans::broken))]
pub fn broken(plan: &Plan) -> bool
    ensures { result ≡ broken plan.now }
{
    units::outside(plan.count, 31) || some_bad_class(plan) || some_bad_flow(plan)
}

// Whether one of the classes breaks a rule.
fn some_bad_class(plan: &Plan) -> bool
    ensures { result ≡ any_from (bad_class plan.now) 0 plan.now.count }
{
    (0..plan.count).any(|class| bad_class(plan, class))
}

// Whether one of the flows is given a class that is not there.
fn some_bad_flow(plan: &Plan) -> bool
    ensures { result ≡ any_from (bad_flow plan.now) 0 16 }
{
    (0..16).any(|flow| plan.count <= plan.class_in(flow))
}

// Whether a class breaks a rule.
fn bad_class(plan: &Plan, class: u64) -> bool
    ensures { result ≡ bad_class plan.now class }
{
    not_lower(plan, class) || five_deep(plan, class) || units::bad_weight(plan.weight_in(class))
}

// Whether a class that is not the root hangs from one that is not lower.
fn not_lower(plan: &Plan, class: u64) -> bool
    ensures { result ≡ not_lower plan.now class }
{
    0 < class && class <= plan.parent_in(class)
}

// Whether a class is at depth 5 or more.
#[tactic(auto, unfolding(crate::specs::Plans::deeper))]
fn five_deep(plan: &Plan, class: u64) -> bool
    ensures { result ≡ deeper 4 plan.now class }
{
    let first = plan.parent_in(class);
    let second = plan.parent_in(first);
    [class, first, second, plan.parent_in(second)]
        .iter()
        .all(|up| *up != 0)
}

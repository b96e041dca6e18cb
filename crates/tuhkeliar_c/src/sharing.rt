// The class lane for programs in C.
ghost use Rattle.std.specs.Prelude.{◌≡◌};
ghost use Rattle.classes.specs.Calls.{open_of, close_of, offer_of, begin_of, end_of};
ghost use Rattle.planting.specs.SetUp.{fresh_lane, set_up_of};
ghost use Rattle.tuhkeliar_c.specs.Sharing.{called_of, planted_of};

use classes::{Classes, Done};
use plain::Answer;
use plans::Plan;

// The lane after a call, and the answer.
#[repr(C)]
#[derive(Drop)]
pub struct ClassCalled {
    pub lane: Classes,
    pub answer: Answer,
}

// The lane before any tree is described: one class with every flow in it.
#[unsafe(no_mangle)]
pub extern "C" fn tuhkeliar_classes_fresh() -> Classes
    ensures { result ≡ fresh_lane }
{
    planting::fresh()
}

// Sets up a new lane with the tree that is described.
#[unsafe(no_mangle)]
pub extern "C" fn tuhkeliar_classes_set_up(lane: Classes, plan: Plan) -> ClassCalled
    ensures { result ≡ planted_of (set_up_of lane plan) }
{
    let planted = planting::set_up(lane, &plan);
    ClassCalled {
        lane: planted.lane,
        answer: class_plain::planted(planted.answer),
    }
}

// Opens a flow with a weight.
#[unsafe(no_mangle)]
pub extern "C" fn tuhkeliar_classes_open(lane: Classes, flow: u64, weight: u64) -> ClassCalled
    ensures { result ≡ called_of (open_of lane flow weight) }
{
    handed(class_flows::open(lane, flow, weight))
}

// Closes a flow that has no packet waiting or in service.
#[unsafe(no_mangle)]
pub extern "C" fn tuhkeliar_classes_close(lane: Classes, flow: u64) -> ClassCalled
    ensures { result ≡ called_of (close_of lane flow) }
{
    handed(class_flows::close(lane, flow))
}

// Offers a packet of a flow.
#[unsafe(no_mangle)]
pub extern "C" fn tuhkeliar_classes_offer(lane: Classes, flow: u64, length: u64) -> ClassCalled
    ensures { result ≡ called_of (offer_of lane flow length) }
{
    handed(class_offers::offer(lane, flow, length))
}

// Takes a waiting packet into service.
#[unsafe(no_mangle)]
pub extern "C" fn tuhkeliar_classes_begin(lane: Classes) -> ClassCalled
    ensures { result ≡ called_of (begin_of lane) }
{
    handed(class_service::begin(lane))
}

// Ends the packet in service.
#[unsafe(no_mangle)]
pub extern "C" fn tuhkeliar_classes_end(lane: Classes) -> ClassCalled
    ensures { result ≡ called_of (end_of lane) }
{
    handed(class_service::end(lane))
}

// The lane after a call, and the answer in plain numbers.
fn handed(done: Done) -> ClassCalled
    ensures { result ≡ called_of done }
{
    ClassCalled {
        lane: done.lane,
        answer: class_plain::plainly(done.answer),
    }
}

// The fair lane: a queue of packets that serves the smallest start tag first, and the virtual time that new packets are stamped by.
#![tactic(auto)]

ghost use Rattle.std.specs.Prelude.{◌≡◌};
ghost use Rattle.fair.specs.Lane.{fresh_lane};
ghost use Rattle.fair.specs.Calls.{open_of, close_of, offer_of, begin_of, end_of};
// What a call is answered, as of every queue of packets.
pub use packets::Answer;
use packets::Queue;
use units::Tag;

// The lane: the virtual time, the largest finish tag of all packets ended, and the queue.
#[repr(C)]
#[derive(Drop)]
pub struct Fair {
    pub time: Tag,
    pub largest: Tag,
    pub queue: Queue,
}

// The lane after a call, and the answer.
#[derive(Drop)]
pub struct Done {
    pub lane: Fair,
    pub answer: Answer,
}

impl Fair {
    // The lane before any call.
    pub fn fresh() -> Fair
        ensures { result ≡ fresh_lane }
    {
        Fair {
            time: Tag(0),
            largest: Tag(0),
            queue: Queue::fresh(),
        }
    }

    // Opens a flow with a weight.
    pub fn open(mut self, flow: u64, weight: u64) -> Done
        ensures { result ≡ open_of self flow weight }
    {
        let answer = self.open_at(flow, weight);
        Done { lane: self, answer }
    }

    // Closes a flow that has no packet waiting and none in service.
    pub fn close(mut self, flow: u64) -> Done
        ensures { result ≡ close_of self flow }
    {
        let answer = self.close_at(flow);
        Done { lane: self, answer }
    }

    // Offers a packet of a flow, of this length in bytes.
    pub fn offer(mut self, flow: u64, length: u64) -> Done
        ensures { result ≡ offer_of self flow length }
    {
        let answer = self.offer_at(flow, length);
        Done { lane: self, answer }
    }

    // Takes the waiting packet with the smallest start tag into service: virtual time is its start.
    pub fn begin(mut self) -> Done
        ensures { result ≡ begin_of self }
    {
        let answer = self.begin_at();
        Done { lane: self, answer }
    }

    // Ends the packet in service. Where none waits then, virtual time goes on to the largest finish tag of all packets ended.
    pub fn end(mut self) -> Done
        ensures { result ≡ end_of self }
    {
        let answer = self.end_at();
        Done { lane: self, answer }
    }

    // The same calls on a lane that stays where it is: opening a flow.
    pub fn open_at(&mut self, flow: u64, weight: u64) -> Answer
        ensures answer { result ≡ (open_of self.old flow weight).answer }
        ensures lane { self.new ≡ (open_of self.old flow weight).lane }
    {
        flows::open(&mut self.queue, flow, weight)
    }

    // Closing a flow.
    pub fn close_at(&mut self, flow: u64) -> Answer
        ensures answer { result ≡ (close_of self.old flow).answer }
        ensures lane { self.new ≡ (close_of self.old flow).lane }
    {
        flows::close(&mut self.queue, flow)
    }

    // Offering a packet.
    pub fn offer_at(&mut self, flow: u64, length: u64) -> Answer
        ensures answer { result ≡ (offer_of self.old flow length).answer }
        ensures lane { self.new ≡ (offer_of self.old flow length).lane }
    {
        let quote = packets::quote_of(self.queue.flow_at(flow), self.time, length);
        queue::put(&mut self.queue, flow, length, quote)
    }

    // Beginning a packet.
    pub fn begin_at(&mut self) -> Answer
        ensures answer { result ≡ (begin_of self.old).answer }
        ensures lane { self.new ≡ (begin_of self.old).lane }
    {
        let answer = service::begin(&mut self.queue);
        if let Answer::Begun(_, _, _, start) = answer {
            self.time = start;
        }
        answer
    }

    // Ending the packet in service.
    pub fn end_at(&mut self) -> Answer
        ensures answer { result ≡ (end_of self.old).answer }
        ensures lane { self.new ≡ (end_of self.old).lane }
    {
        let finish = self.queue.service.finish;
        let answer = service::end(&mut self.queue);
        if let Answer::Ended(_, _, _) = answer {
            self.largest = tags::later(self.largest, finish);
            if self.queue.waiting() == 0 {
                self.time = self.largest;
            }
        }
        answer
    }
}

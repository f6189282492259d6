// The two hosts that are measured. Both keep one session: one lends it to each call, as a player would, and the other
// hands it over by value and puts back what each call gives. A report is asked for in one way alone, and changes
// nothing.
use deliver::Delivery;
use params::{BadState, ParamsError, SessionParams};
use pump::{Outbound, Run};
use rows::Rows;
use session::{Advance, CommitError, Outcome, Session, SubmitError};
use wire::Message;

pub(crate) trait Host {
    // Before the first open.
    fn new() -> Self;

    fn session(&self) -> &Session;

    fn open(&mut self, params: SessionParams) -> Result<(), ParamsError>;

    fn submit(&mut self, press: &[u8]) -> Result<u64, SubmitError>;

    fn deliver(&mut self, source: u8, message: Message, run: &[u8]) -> Delivery;

    fn advance(&mut self) -> (Advance, Rows);

    fn commit(&mut self, tick: u64, digest: Option<u64>) -> Result<(), CommitError>;

    fn pump(&mut self) -> (Outbound, Run);

    fn leave(&mut self) -> Result<Outcome, BadState>;
}

#[derive(Drop)]
pub(crate) struct InPlace(Session);

impl Host for InPlace {
    fn new() -> InPlace {
        InPlace(Session::unopened())
    }

    fn session(&self) -> &Session {
        &self.0
    }

    fn open(&mut self, params: SessionParams) -> Result<(), ParamsError> {
        self.0.open_in(params)
    }

    fn submit(&mut self, press: &[u8]) -> Result<u64, SubmitError> {
        self.0.submit_in(press)
    }

    fn deliver(&mut self, source: u8, message: Message, run: &[u8]) -> Delivery {
        deliver::deliver_in(&mut self.0, source, message, run)
    }

    fn advance(&mut self) -> (Advance, Rows) {
        self.0.advance_in()
    }

    fn commit(&mut self, tick: u64, digest: Option<u64>) -> Result<(), CommitError> {
        self.0.commit_in(tick, digest)
    }

    fn pump(&mut self) -> (Outbound, Run) {
        pump::next_outbound_in(&mut self.0)
    }

    fn leave(&mut self) -> Result<Outcome, BadState> {
        self.0.leave_in()
    }
}

#[derive(Drop)]
pub(crate) struct ByValue(Session);

impl Host for ByValue {
    fn new() -> ByValue {
        ByValue(Session::unopened())
    }

    fn session(&self) -> &Session {
        &self.0
    }

    fn open(&mut self, params: SessionParams) -> Result<(), ParamsError> {
        let opened = Session::open(params);
        self.0 = opened.session;
        opened.answer
    }

    fn submit(&mut self, press: &[u8]) -> Result<u64, SubmitError> {
        let submitted = self.0.submit(press);
        self.0 = submitted.session;
        submitted.answer
    }

    fn deliver(&mut self, source: u8, message: Message, run: &[u8]) -> Delivery {
        let delivered = deliver::deliver(self.0, source, message, run);
        self.0 = delivered.session;
        delivered.answer
    }

    fn advance(&mut self) -> (Advance, Rows) {
        let advanced = self.0.advance();
        self.0 = advanced.session;
        let rows = advanced.frames;
        (advanced.answer, rows)
    }

    fn commit(&mut self, tick: u64, digest: Option<u64>) -> Result<(), CommitError> {
        let committed = self.0.commit(tick, digest);
        self.0 = committed.session;
        committed.answer
    }

    fn pump(&mut self) -> (Outbound, Run) {
        let pumped = pump::next_outbound(self.0);
        self.0 = pumped.session;
        let run = pumped.run;
        (pumped.answer, run)
    }

    fn leave(&mut self) -> Result<Outcome, BadState> {
        let left = self.0.leave();
        self.0 = left.session;
        left.answer
    }
}

// Workers, and what each has done.

use feed_workers::{LeapWorker, LinkWork, LogWork, PollWork, PollWorker, RadioWorker};
use responder::Responder;

/// A radio's worker, and what it did.
#[derive(Drop)]
pub struct RadioJob<L: Drop> {
    pub worker: RadioWorker<L>,
    pub work: LogWork,
}

/// A server's worker, and what it did.
#[derive(Drop)]
pub struct PollJob<T: Drop> {
    pub worker: PollWorker<T>,
    pub work: PollWork,
}

/// A leap second file's worker, and what it did.
#[derive(Drop)]
pub struct LeapJob<L: Drop> {
    pub worker: LeapWorker<L>,
    pub work: LogWork,
}

/// A responder, and what it did in each phase.
#[derive(Drop)]
pub struct ServeJob<T: Drop> {
    pub responder: Responder<T>,
    pub work: LinkWork,
}

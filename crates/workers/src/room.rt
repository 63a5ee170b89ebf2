//! The room for all that serving makes, which is got before the first worker starts.
ghost use Rattle.std.specs.Prelude.{◌≡◌, replicate, IfOk, vec_len};
ghost use Rattle.workers.specs.Room.{HasRoom};

use crate::told::{Sheet, Told};
use crate::worker::Worker;
use crossbeam_channel::{Receiver, bounded};
use path_text::{Errno, NoMemory};
use root_ops::Reply;
use sessions::Session;
use std::alloc::Global;
use std::sync::Wait;

/// The numbers of the jobs, room for so many workers and for what they hand back, and for each worker a sheet with
/// room for a reply to each job.
#[derive(Drop)]
pub struct Desk {
    pub numbers: Receiver<usize>,
    pub sheets: Vec<Sheet>,
    pub workers: Vec<Worker>,
    pub sessions: Vec<Session>,
    pub lists: Vec<Told>,
}

/// The workers' room, with a count and a place for each job.
#[derive(Drop)]
pub struct Room {
    pub desk: Desk,
    pub counts: Vec<usize>,
    pub replies: Vec<Reply>,
}

// The numbers of the jobs, in a channel that is filled and closed.
fn numbers_below<R: Wait>(rt: &R, alloc: Global, jobs: usize) -> Result<Receiver<usize>, NoMemory> {
    let (to, from) = bounded(alloc, jobs)?;
    for job in 0..jobs {
        if to.send(rt, job).is_err() {
            return Err(NoMemory);
        }
    }
    Ok(from)
}

// A place for each job's reply. What stands there is written over.
fn places(alloc: Global, jobs: usize) -> Result<Vec<Reply>, NoMemory>
    ensures { IfOk result (λ places. vec_len places ≡ jobs) }
{
    let mut places = Vec::with_capacity(alloc, jobs)?;
    for place in 0..jobs {
        places.push(Reply::Fault(Errno::NoMemory))?;
    }
    Ok(places)
}

// A sheet for each worker, with room for a reply to each job.
fn sheets_for(alloc: Global, workers: usize, jobs: usize) -> Result<Vec<Sheet>, NoMemory> {
    let mut sheets = Vec::with_capacity(alloc, workers)?;
    for _ in 0..workers {
        sheets.push(Sheet::new(alloc, jobs)?)?;
    }
    Ok(sheets)
}

impl Desk {
    fn new<R: Wait>(rt: &R, alloc: Global, workers: usize, jobs: usize) -> Result<Desk, NoMemory>
        ensures { IfOk result (λ desk. HasRoom desk workers) }
    {
        Ok(Desk {
            numbers: numbers_below(rt, alloc, jobs)?,
            sheets: sheets_for(alloc, workers, jobs)?,
            workers: Vec::with_capacity(alloc, workers)?,
            sessions: Vec::with_capacity(alloc, workers)?,
            lists: Vec::with_capacity(alloc, workers)?,
        })
    }
}

impl Room {
    /// Room for so many workers and jobs.
    pub fn new<R: Wait>(
        rt: &R,
        alloc: Global,
        workers: usize,
        jobs: usize,
    ) -> Result<Room, NoMemory>
        ensures desk { IfOk result (λ room. HasRoom room.desk workers) }
        ensures counts { IfOk result (λ room. room.counts.items ≡ replicate jobs 0) }
        ensures replies { IfOk result (λ room. vec_len room.replies ≡ jobs) }
    {
        Ok(Room {
            desk: Desk::new(rt, alloc, workers, jobs)?,
            counts: vec![in alloc; 0usize; jobs]?,
            replies: places(alloc, jobs)?,
        })
    }
}

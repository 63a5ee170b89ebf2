//! How often each job was answered, and the replies in the order of the jobs.
ghost use Rattle.std.specs.Prelude.{◌≡◌, ◌<◌, ◌≤◌, ◌+◌, ℕ, min, length, slice_index, slice_get, MatchOption, [], ◌∷◌};
ghost use Rattle.workers.specs.Serve.{replies_to, last_to, joined, IsFirst, NoneBelow};

use crate::told::{Numbered, Told};
use root_ops::Reply;
use std::mem;

// Counts one worker's replies, a job's up to two: more tells no more.
fn count_replies(counts: &mut [usize], told: &[Numbered])
    requires { (job : ℕ) → job < length counts.old → slice_index counts.old job ≤ 2 }
    ensures { (job : ℕ) → job < length counts.old
        → slice_index counts.new job ≡ min 2 (slice_index counts.old job + replies_to job told.now) }
{
    for numbered in told {
        let job = numbered.job;
        if job < counts.len() && counts[job] < 2 {
            counts[job] += 1;
        }
    }
}

/// Counts all workers' replies, a job's up to two.
pub fn count_all(counts: &mut [usize], lists: &[Told])
    requires { (job : ℕ) → job < length counts.old → slice_index counts.old job ≡ 0 }
    ensures { (job : ℕ) → job < length counts.old
        → slice_index counts.new job ≡ min 2 (replies_to job (joined lists.now)) }
{
    for told in lists {
        count_replies(counts, told.as_slice());
    }
}

/// The first job that was answered twice.
pub fn first_doubled(counts: &[usize]) -> Option<usize>
    ensures { MatchOption result (NoneBelow (λ job. 1 < slice_index counts.now job) (length counts.now))
        (λ job. IsFirst (λ k. 1 < slice_index counts.now k) (length counts.now) job) }
{
    for job in 0..counts.len() {
        if counts[job] > 1 {
            return Some(job);
        }
    }
    None
}

/// The first job that wasn't answered.
pub fn first_lost(counts: &[usize]) -> Option<usize>
    ensures { MatchOption result (NoneBelow (λ job. slice_index counts.now job ≡ 0) (length counts.now))
        (λ job. IsFirst (λ k. slice_index counts.now k ≡ 0) (length counts.now) job) }
{
    for job in 0..counts.len() {
        if counts[job] == 0 {
            return Some(job);
        }
    }
    None
}

// Puts a reply in the place of its job.
fn put_reply(replies: &mut [Reply], numbered: Numbered)
    ensures { (job : ℕ) → job < length replies.old
        → slice_get replies.new job ≡ last_to job (slice_get replies.old job) (numbered ∷ []) }
{
    let Numbered { job, reply } = numbered;
    if job < replies.len() {
        let _before = mem::replace(&mut replies[job], reply);
    }
}

// Puts one worker's replies in the places of their jobs.
fn put_replies(replies: &mut [Reply], told: Told)
    ensures { (job : ℕ) → job < length replies.old
        → slice_get replies.new job ≡ last_to job (slice_get replies.old job) told }
{
    for numbered in told.into_replies() {
        put_reply(replies, numbered);
    }
}

/// Puts all workers' replies in the places of their jobs.
pub fn put_all(replies: &mut [Reply], lists: Vec<Told>)
    ensures { (job : ℕ) → job < length replies.old
        → slice_get replies.new job ≡ last_to job (slice_get replies.old job) (joined lists.items) }
{
    for told in lists {
        put_replies(replies, told);
    }
}

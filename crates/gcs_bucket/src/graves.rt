//! Deleted buckets, until their hard times.
ghost use Rattle.std.specs.Prelude.{◌≡◌, ◌≤◌, ◌<◌, ◌^◌, ◌&&◌, filter, length, map, nat_lt, vec_len, vec_capacity, IfOk};
ghost use Rattle.std.specs.List.{find, position_or_len};
ghost use Rattle.std.specs.Option.{option_copied, option_map};
ghost use Rattle.gcs_meaning.specs.Aging.{aged_grave, aged_graves};
ghost use Rattle.gcs_meaning.specs.BucketDeletion.{grave_of, with_grave};
ghost use Rattle.gcs_meaning.specs.BucketRestore.{grave_found, is_grave_of, restored_state, without_grave};
ghost use Rattle.gcs_meaning.specs.Policy.{AreInLimits};
ghost use Rattle.gcs_meaning.specs.Slot.{bucket_row};
ghost use Rattle.gcs_bucket.specs.Alive.{alive_of, state_of};
ghost use Rattle.gcs_versions.specs.Rows.{map_at};

use crate::alive::State;
use gcs_meaning::{BucketName, BucketRow, MICROSECONDS_PER_SECOND};
use std::alloc::{AllocError, Global};
use std::marker::Model;

/// A bucket that was deleted, seen as its state and the moment from which on it is gone.
#[derive(Drop)]
pub struct Grave {
    state: State,
    hard: u64,
}

impl Model for Grave {
    ghost use Rattle.gcs_meaning.specs.Slot.{Grave};
    ghost use Rattle.gcs_bucket.specs.Alive.{state_of};

    ghost Value = { Grave };

    ghost view = { λ g. record { state = state_of g.state; hard = g.hard } };
}

impl Grave {
    /// The bucket as it is deleted at `moment` (microseconds since 1970): it stays for its
    /// soft-delete duration, and as long as one of its versions does. Its uploads go.
    #[tactic(auto, unfolding(gcs_meaning::specs::BucketDeletion::grave_of))]
    pub fn of(mut state: State, moment: u64) -> Grave
        requires limits { AreInLimits state.settings }
        requires moment { moment < 2 ^ 62 }
        ensures { result ≡ grave_of moment (state_of state) }
    {
        let until = moment + state.settings.soft_seconds * MICROSECONDS_PER_SECOND;
        let hard = until.max(state.rows.latest_hard());
        state.uploads.clear();
        Grave { state, hard }
    }

    /// The same deleted bucket, in memory of its own. `Err`: no memory.
    fn copy(&self) -> Result<Grave, AllocError>
        ensures { IfOk result (λ made. made ≡ self.now) }
    {
        Ok(Grave {
            state: self.state.copy()?,
            hard: self.hard,
        })
    }

    /// What is shown of the bucket once it is alive again at `moment`. `Err`: no memory.
    pub fn show_restored(&self, bucket: &BucketName, moment: u64) -> Result<BucketRow, AllocError>
        requires { self.now.state.metageneration ≤ 2 ^ 62 }
        ensures { IfOk result (λ row. row ≡ bucket_row bucket.now (restored_state moment self.now.state)) }
    {
        let mut row = self.state.show(bucket)?;
        row.metageneration += 1;
        row.updated = moment;
        Ok(row)
    }

    // The bucket has this generation.
    fn is_of(&self, generation: u64) -> bool
        ensures { result ≡ is_grave_of generation self.now }
    {
        self.state.generation == generation
    }

    fn age(&mut self, moment: u64)
        ensures { self.new ≡ aged_grave moment self.old }
    {
        self.state.age(moment);
    }
}

/// Takes away the deleted buckets whose hard time is at most `moment`, and ages the others.
#[tactic(auto, unfolding(gcs_meaning::specs::Aging::aged_graves))]
pub fn age_graves(graves: &mut Vec<Grave>, moment: u64)
    ensures items { graves.new.items ≡ aged_graves moment graves.old.items }
    ensures fewer { vec_len graves.new ≤ vec_len graves.old }
    ensures capacity { vec_capacity graves.new ≡ vec_capacity graves.old }
{
    keep_graves(graves, moment);
    age_each(graves, moment);
}

fn keep_graves(graves: &mut Vec<Grave>, moment: u64)
    ensures items { graves.new.items ≡ filter (λ g. nat_lt moment g.hard) graves.old.items }
    ensures fewer { vec_len graves.new ≤ vec_len graves.old }
    ensures capacity { vec_capacity graves.new ≡ vec_capacity graves.old }
{
    graves.retain(|grave| moment < grave.hard);
}

fn age_each(graves: &mut Vec<Grave>, moment: u64)
    ensures items { graves.new.items ≡ map (aged_grave moment) graves.old.items }
    ensures len { vec_len graves.new ≡ vec_len graves.old }
    ensures capacity { vec_capacity graves.new ≡ vec_capacity graves.old }
{
    for place in 0..graves.len() {
        age_at(graves, place, moment);
    }
}

fn age_at(graves: &mut Vec<Grave>, place: usize, moment: u64)
    requires { place < length graves.old.items }
    ensures items { graves.new.items ≡ map_at place (aged_grave moment) graves.old.items }
    ensures len { vec_len graves.new ≡ vec_len graves.old }
    ensures capacity { vec_capacity graves.new ≡ vec_capacity graves.old }
{
    let grave = &mut graves[place];
    grave.age(moment);
}

/// Adds a deleted bucket, unless it is gone at `moment`. There is room for it.
pub fn add_grave(graves: &mut Vec<Grave>, grave: Grave, moment: u64)
    requires { vec_len graves.old < vec_capacity graves.old }
    ensures { graves.new.items ≡ with_grave moment grave graves.old.items }
{
    if moment < grave.hard {
        let _ = graves.insert(0, grave);
    }
}

/// The same deleted buckets, in memory of their own. `Err`: no memory.
pub fn copy_graves(alloc: Global, graves: &[Grave]) -> Result<Vec<Grave>, AllocError>
    ensures { IfOk result (λ made. made.items ≡ graves.now) }
{
    let mut made = Vec::new(alloc);
    for grave in graves {
        made.push(grave.copy()?)?;
    }
    Ok(made)
}

/// The deleted bucket of that generation, unless it is gone at `moment`.
pub fn find_grave(graves: &[Grave], moment: u64, generation: u64) -> Option<&Grave>
    ensures { option_copied result ≡ find (λ g. nat_lt moment g.hard && is_grave_of generation g) graves.now }
{
    graves
        .iter()
        .find(|grave| moment < grave.hard && grave.is_of(generation))
}

/// Takes the deleted bucket of that generation out, where it is there.
pub fn take_grave(graves: &mut Vec<Grave>, generation: u64) -> Option<State>
    ensures state { alive_of result ≡ option_map (λ g. g.state) (grave_found generation graves.old.items) }
    ensures rest { graves.new.items ≡ without_grave generation graves.old.items }
{
    let place = place_of(graves, generation);
    if place >= graves.len() {
        return None;
    }
    let grave = graves.remove(place);
    Some(grave.state)
}

// Where the deleted bucket of that generation is, and behind all where there is none.
fn place_of(graves: &[Grave], generation: u64) -> usize
    ensures { result ≡ position_or_len (is_grave_of generation) graves.now }
{
    for (place, grave) in graves.iter().enumerate() {
        if grave.is_of(generation) {
            return place;
        }
    }
    graves.len()
}

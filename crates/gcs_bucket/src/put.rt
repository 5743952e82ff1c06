//! A new version of a name.
ghost use Rattle.std.specs.Prelude.{◌≡◌, ◌<◌, ◌^◌, IfOk, OnErr, None, Ok, length, true, unwrap_or};
ghost use Rattle.std.specs.List.{AllByRecursion};
ghost use Rattle.std.specs.Option.{IfSome, option_copied, option_map};
ghost use Rattle.gcs_index.specs.Looks.{AreLooks};
ghost use Rattle.gcs_meaning.specs.Aging.{aged};
ghost use Rattle.gcs_meaning.specs.Choosing.{is_live, live_row};
ghost use Rattle.gcs_meaning.specs.Moment.{effective_moment};
ghost use Rattle.gcs_meaning.specs.ObjectDeletion.{delete_state};
ghost use Rattle.gcs_meaning.specs.Order.{IsNumbered};
ghost use Rattle.gcs_meaning.specs.Policy.{AreInLimits};
ghost use Rattle.gcs_meaning.specs.Put.{generation_of, kept_meta, metageneration_of, new_row, put_refusal, put_state, put_step, replaced_refusal};
ghost use Rattle.gcs_versions.specs.Kept.{IsReadyToPut, IsReadyToRetire};
ghost use Rattle.gcs_bucket.specs.Alive.{AreEarly, CanPut, CanRetire, IsEarly, state_of};
ghost use Rattle.gcs_bucket.specs.Put.{decided_put, tested_put, IsNext, IsNextAlive};
ghost use Rattle.gcs_bucket.specs.Slot.{row_count, value_of, IsReady};

use crate::alive::State;
use crate::refusals::{differing_digest, failed_precondition, kept_version, too_large};
use crate::slot::Slot;
use gcs_meaning::{
    Answer, Copied, Expect, Hashed, Kind, Meta, Name, Pre, Reason, Row, Settings, Text, effective,
};
use gcs_versions::Steps;
use std::alloc::AllocError;
use std::sync::ledger::Ledger;

/// What a version that is made needs of memory, taken before anything is changed: the version, its
/// copy for the answer, and the settings that are shown with it. Beside it the generation of the live version of the
/// name, which it replaces.
#[derive(Drop)]
pub struct Prepared {
    pub row: Row,
    pub shown: Row,
    pub settings: Settings,
    pub live: Option<u64>,
}

impl Slot {
    /// The put of a version. At most one search.
    pub fn put<L: Ledger>(
        &mut self,
        reading: u64,
        name: &Name,
        pre: &Pre,
        meta: &Meta,
        hashed: &Hashed,
        components: Option<u32>,
        expect: &Expect,
        steps: &mut Steps<L>,
    ) -> Result<Answer, AllocError>
        requires ready { IsReady (value_of self.old) }
        ensures done { IfOk result (λ answer.
            let t = effective_moment self.old.last_moment reading in
            put_step (aged (value_of self.old) t) t name.now pre.now meta.now hashed.now components expect.now ≡ (answer, value_of self.new)) }
        ensures err { OnErr result (value_of self.new ≡ value_of self.old) }
        ensures looks { AreLooks 1 (row_count (value_of self.old)) steps.old steps.new }
    {
        let moment = effective(self.last_moment, reading);
        self.put_at(moment, name, pre, meta, hashed, components, expect, steps)
    }

    /// The put of a version at `moment`. It is decided before ageing, which takes no live version. At most one search.
    pub fn put_at<L: Ledger>(
        &mut self,
        moment: u64,
        name: &Name,
        pre: &Pre,
        meta: &Meta,
        hashed: &Hashed,
        components: Option<u32>,
        expect: &Expect,
        steps: &mut Steps<L>,
    ) -> Result<Answer, AllocError>
        requires ready { IsReady (value_of self.old) }
        requires moment { moment < 2 ^ 62 }
        ensures done { IfOk result (λ answer.
            put_step (aged (value_of self.old) moment) moment name.now pre.now meta.now hashed.now components expect.now ≡ (answer, value_of self.new)) }
        ensures err { OnErr result (value_of self.new ≡ value_of self.old) }
        ensures looks { AreLooks 1 (row_count (value_of self.old)) steps.old steps.new }
    {
        let decision = self.decide_put(moment, name, pre, meta, hashed, components, expect, steps)?;
        self.prepare(name)?;
        self.age(moment);
        match decision {
            Ok(made) => Ok(self.add(moment, name, made)),
            Err(reason) => Ok(Answer::Refused(reason)),
        }
    }

    /// What the put comes to at `moment`: it is refused, or this is what it makes. `Err`: no memory. At most one search.
    pub fn decide_put<L: Ledger>(
        &self,
        moment: u64,
        name: &Name,
        pre: &Pre,
        meta: &Meta,
        hashed: &Hashed,
        components: Option<u32>,
        expect: &Expect,
        steps: &mut Steps<L>,
    ) -> Result<Result<Prepared, Reason>, AllocError>
        requires ready { IsReady (value_of self.now) }
        requires moment { moment < 2 ^ 62 }
        ensures decided { IfOk result (λ decision.
            put_step (aged (value_of self.now) moment) moment name.now pre.now meta.now hashed.now components expect.now
            ≡ decided_put decision moment (aged (value_of self.now) moment)) }
        ensures next { IfOk result (λ decision. IfOk decision (λ made. IsNextAlive made name.now (aged (value_of self.now) moment))) }
        ensures looks { AreLooks 1 (row_count (value_of self.now)) steps.old steps.new }
    {
        let Some(state) = &self.alive else {
            return Ok(Err(Reason::NoBucket));
        };
        let live = match state.test_put(moment, name, pre, expect, hashed, steps) {
            Ok(live) => live,
            Err(reason) => return Ok(Err(reason)),
        };
        let generation = moment.max(self.last_object + 1);
        let row = make_row(
            &state.settings,
            moment,
            generation,
            name,
            meta,
            hashed,
            components,
        )?;
        let shown = row.copy()?;
        let settings = state.settings.copy()?;
        Ok(Ok(Prepared {
            row,
            shown,
            settings,
            live,
        }))
    }

    /// Adds the version of that name that was decided on and prepared, and answers with it.
    pub fn add(&mut self, moment: u64, name: &Name, made: Prepared) -> Answer
        requires ready { IsReady (value_of self.old) }
        requires moment { moment < 2 ^ 62 }
        requires put { CanPut name.now self.old.alive }
        requires retire { CanRetire name.now self.old.alive }
        requires next { IsNextAlive made name.now (value_of self.old) }
        ensures { (result, value_of self.new) ≡ decided_put (Ok made) moment (value_of self.old) }
    {
        let Prepared {
            row,
            shown,
            settings,
            live,
        } = made;
        self.last_object = row.generation;
        if let Some(state) = &mut self.alive {
            state.put(moment, row, live);
        }
        Answer::Object(shown, settings)
    }
}

impl State {
    /// The tests of a put at `moment`: the first that fails, or the generation of the live version of the name. One search.
    #[tactic(auto, unfolding(gcs_meaning::specs::Put::put_refusal))]
    pub fn test_put<L: Ledger>(
        &self,
        moment: u64,
        name: &Name,
        pre: &Pre,
        expect: &Expect,
        hashed: &Hashed,
        steps: &mut Steps<L>,
    ) -> Result<Option<u64>, Reason>
        requires limits { AreInLimits self.now.settings }
        requires early { AreEarly self.now.rows.rows }
        requires moment { moment < 2 ^ 62 }
        ensures tested { result ≡ tested_put (put_refusal self.now.settings moment pre.now expect.now hashed.now (live_row name.now self.now.rows.rows)) (live_row name.now self.now.rows.rows) }
        ensures looks { AreLooks 1 (length self.now.rows.rows) steps.old steps.new }
    {
        let live = self.rows.live(name, steps);
        let (generation, metageneration) = numbers(live);
        let kept = kept_live(&self.settings, moment, live);
        let refusal = failed_precondition(pre, generation, metageneration)
            .or(kept)
            .or_else(|| differing_digest(expect, hashed))
            .or_else(|| too_large(hashed.content().len()));
        match refusal {
            Some(reason) => Err(reason),
            None => Ok(live.map(|row| row.generation)),
        }
    }

    /// Retires the live version of the row's name, of this generation, and adds the row, which is live and whose
    /// generation is above all of the bucket's. Both were prepared.
    #[tactic(auto, unfolding(gcs_meaning::specs::Put::put_state, gcs_meaning::specs::ObjectDeletion::delete_state))]
    pub fn put(&mut self, moment: u64, row: Row, live: Option<u64>)
        requires put { IsReadyToPut row.name self.old.rows }
        requires retire { IsReadyToRetire row.name self.old.rows }
        requires limits { AreInLimits self.old.settings }
        requires moment { moment < 2 ^ 62 }
        requires next { IsNext row live (state_of self.old) }
        ensures { state_of self.new ≡ put_state (state_of self.old) moment row }
    {
        self.retire_live(moment, &row.name, live);
        self.rows.put(row);
    }

    // Retires the live version of the name, where there is one, of this generation.
    fn retire_live(&mut self, moment: u64, name: &Name, live: Option<u64>)
        requires retire { IsReadyToRetire name.now self.old.rows }
        requires limits { AreInLimits self.old.settings }
        requires moment { moment < 2 ^ 62 }
        requires live { live ≡ option_map (λ row. row.generation) (live_row name.now self.old.rows.rows) }
        ensures state { state_of self.new ≡ delete_state (state_of self.old) moment name.now None }
        ensures none { live_row name.now self.new.rows.rows ≡ None }
        ensures put { IsReadyToPut name.now self.old.rows → IsReadyToPut name.now self.new.rows }
    {
        self.rows.known();
        let Some(generation) = live else {
            return;
        };
        self.remove(moment, name, None, generation);
    }
}

fn make_row(
    settings: &Settings,
    moment: u64,
    generation: u64,
    name: &Name,
    meta: &Meta,
    hashed: &Hashed,
    components: Option<u32>,
) -> Result<Row, AllocError>
    ensures { IfOk result (λ row. row ≡ new_row settings.now moment generation name.now meta.now hashed.now components) }
{
    Ok(Row {
        name: name.copy()?,
        generation,
        metageneration: 1,
        hashed: hashed.copy()?,
        components,
        meta: keep_meta(settings, meta)?,
        created: moment,
        updated: moment,
        retention_start: moment,
        kind: Kind::Live,
    })
}

// The hold and the class that aren't given are the bucket's.
fn keep_meta(settings: &Settings, meta: &Meta) -> Result<Meta, AllocError>
    ensures { IfOk result (λ made. made ≡ kept_meta settings.now meta.now) }
{
    let mut made = meta.copy()?;
    made.event_hold = Some(meta.event_hold.unwrap_or(settings.default_event_hold));
    made.storage_class = Some(class_of(&meta.storage_class, &settings.storage_class)?);
    Ok(made)
}

fn class_of(given: &Option<Text>, usual: &Text) -> Result<Text, AllocError>
    ensures { IfOk result (λ made. made ≡ unwrap_or given.now usual.now) }
{
    match given {
        Some(class) => class.copy(),
        None => usual.copy(),
    }
}

// The numbers of a version, 0 and 0 where there is none.
fn numbers(row: Option<&Row>) -> (u64, u64)
    ensures generation { result.0 ≡ generation_of (option_copied row.entry) }
    ensures metageneration { result.1 ≡ metageneration_of (option_copied row.entry) }
{
    match row {
        Some(row) => (row.generation, row.metageneration),
        None => (0, 0),
    }
}

// What keeps the live version, where there is one, from being replaced.
fn kept_live(settings: &Settings, moment: u64, live: Option<&Row>) -> Option<Reason>
    requires limits { AreInLimits settings.now }
    requires early { IfSome (option_copied live) IsEarly }
    requires moment { moment < 2 ^ 62 }
    ensures { result ≡ replaced_refusal settings.now moment (option_copied live.entry) }
{
    match live {
        Some(row) => kept_version(settings, moment, false, row),
        None => None,
    }
}

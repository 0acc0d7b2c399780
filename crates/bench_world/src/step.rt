// One event after another.
ghost use Rattle.std.specs.Prelude.{◌≡◌, ◌+◌, ◌<◌, ◌≤◌, length, IfOk, IfErr, OnOk, OnErr};
ghost use Rattle.std.specs.List.{All};
ghost use Rattle.group_model.specs.Refusals.{refusal};
ghost use Rattle.bench_world.specs.Serving.{environment};
ghost use Rattle.bench_world.specs.Worlds.{world_of};
ghost use Rattle.bench_world.specs.EventValues.{event_value, group_event, report_value};
ghost use Rattle.bench_world.specs.Steps.{EventInRange, NamesClient, IsFaultOf, IsStepFaultOf};
ghost use Rattle.bench_world.specs.Runs.{StandsAsBefore, IsStep, event_values, IsStopped};
ghost use Rattle.bench_world.specs.CarryingOut.{EventFits, HasCarriedOut, IsReportOf, HaveCarriedOut};
ghost use Rattle.bench_world.specs.CarryingOut.{KeepsKeysAndMirrors};

use crate::event::{Event, EventError, Happened, StepFault};
use crate::world::World;
use bench_net::{Draws, Net};
use std::thread::Threads;

impl World {
    /// Carries out an event, and returns its result. A refusal has its name.
    pub fn take_event<N: Net + Sync, D: Draws, R: Threads + Sync>(
        &mut self,
        rt: &R,
        event: &Event,
        net: &N,
        draws: &D,
    ) -> Result<Happened, EventError>
        requires fits { EventFits (length self.old.keys.members.names) (length self.old.keys.clients.names)
            (event_value event.now) }
        requires few { self.old.steps < 100000 }
        ensures ok { OnOk result (HasCarriedOut (environment self.old.keys (D.draw draws.now) (N.passes net.now))
            (event_value event.now) self.old self.new) }
        ensures refused { IfErr result (IsFaultOf (refusal
            (environment self.old.keys (D.draw draws.now) (N.passes net.now))
            (world_of self.old) (group_event self.old.keys (event_value event.now)))) }
        ensures report { IfOk result (λ happened. IsReportOf
            (environment self.old.keys (D.draw draws.now) (N.passes net.now)) (event_value event.now) self.old
            (report_value happened)) }
        ensures keeps { KeepsKeysAndMirrors self.old self.new }
        ensures err { OnErr result (StandsAsBefore (event_value event.now) self.old self.new) }
    {
        self.cite_soundness();
        self.order_names_for(event);
        self.carry_out(rt, event, net, draws)
    }

    /// Carries out an event, and returns its result. A refusal has the number that the report prints.
    #[tactic(auto, using(crate::proofs::Faults::step_faults))]
    pub fn step<N: Net + Sync, D: Draws, R: Threads + Sync>(
        &mut self,
        rt: &R,
        event: &Event,
        net: &N,
        draws: &D,
    ) -> Result<Happened, StepFault>
        requires fits { EventFits (length self.old.keys.members.names) (length self.old.keys.clients.names)
            (event_value event.now) }
        requires few { self.old.steps < 100000 }
        ensures ok { OnOk result (HasCarriedOut (environment self.old.keys (D.draw draws.now) (N.passes net.now))
            (event_value event.now) self.old self.new) }
        ensures refused { IfErr result (IsStepFaultOf
            (refusal (environment self.old.keys (D.draw draws.now) (N.passes net.now))
            (world_of self.old) (group_event self.old.keys (event_value event.now)))) }
        ensures report { IfOk result (λ happened. IsReportOf
            (environment self.old.keys (D.draw draws.now) (N.passes net.now)) (event_value event.now) self.old
            (report_value happened)) }
        ensures keeps { KeepsKeysAndMirrors self.old self.new }
        ensures err { OnErr result (StandsAsBefore (event_value event.now) self.old self.new) }
    {
        Ok(self.take_event(rt, event, net, draws)?)
    }

    // A member that the event asks by name puts the names of its packets in order. The world stays as it is.
    fn order_names_for(&mut self, event: &Event)
        requires { EventInRange (length self.old.members) (event_value event.now) }
        ensures { self.new ≡ self.old }
    {
        match event {
            Event::Ask { m, .. } => self.order_names(*m),
            Event::Answer { q, .. } => self.order_names(*q),
            _ => {}
        }
    }

    // Carries out the event, by the method of its kind.
    fn carry_out<N: Net + Sync, D: Draws, R: Threads + Sync>(
        &mut self,
        rt: &R,
        event: &Event,
        net: &N,
        draws: &D,
    ) -> Result<Happened, EventError>
        requires ready { EventInRange (length self.old.members) (event_value event.now) }
        requires clients { NamesClient (length self.old.keys.clients.names) (event_value event.now) }
        requires few { self.old.steps < 100000 }
        ensures { IsStep (environment self.old.keys (D.draw draws.now) (N.passes net.now)) (event_value event.now)
            self.old result self.new }
    {
        match event {
            Event::Publish {
                m,
                name,
                size,
                content,
            } => self.publish(*m, name, *size, content, draws),
            Event::Withdraw { m, s } => self.withdraw(*m, *s, draws),
            Event::Deliver { k, m } => self.deliver(*k, *m, draws),
            Event::Sync { k } => self.sync(*k),
            Event::Advance { ms } => Ok(self.advance(*ms)),
            Event::Fire { m } => self.fire(*m, draws),
            Event::Restart { m } => Ok(self.restart(*m, draws)),
            Event::Vector { m } => self.vector(*m),
            Event::Catalogue { m } => self.catalogue(*m),
            Event::Claim { m, f } => self.claim(*m, *f),
            Event::Lose { m, f } => self.lose(*m, *f),
            Event::Answer { m, f, q } => self.answer(*m, *f, *q),
            Event::Fetch {
                m,
                workers,
                tries,
                loss,
            } => self.fetch(rt, *m, *workers, *tries, *loss, net),
            Event::Settle { workers } => self.settle_step(rt, *workers, net, draws),
            Event::Dump { m, p, s, x } => self.dump(*m, *p, *s, *x),
            Event::Hear { m, octets } => self.hear(*m, octets, draws),
            Event::Ask { m, octets } => self.ask(*m, octets),
            Event::Feed { m, f, octets } => self.feed(*m, *f, octets),
            Event::Order { m, octets } => self.order(*m, octets),
            Event::Insert {
                m,
                client,
                name,
                first,
                last,
            } => self.insert(*m, *client, name, *first, *last),
            Event::Block {
                m,
                process,
                index,
                content,
            } => self.block(*m, *process, *index, content, draws),
            Event::Status { m, client, process } => self.status(*m, *client, *process),
            Event::Delete { m, client, name } => self.delete(*m, *client, name),
            Event::Summary => self.summary(),
            Event::Traffic => Ok(self.traffic()),
        }
    }

    /// Carries out events, one after another, up to the first fault: how many were carried out, and the fault, if there
    /// was one.
    pub fn run_events<N: Net + Sync, D: Draws, R: Threads + Sync>(
        &mut self,
        rt: &R,
        events: &[Event],
        net: &N,
        draws: &D,
    ) -> Result<usize, (usize, StepFault)>
        requires fits { All (λ event. EventFits (length self.old.keys.members.names)
            (length self.old.keys.clients.names) (event_value event)) events.now }
        requires few { self.old.steps + length events.now ≤ 100000 }
        ensures count { IfOk result (λ n. n ≡ length events.now) }
        ensures ok { OnOk result (HaveCarriedOut (environment self.old.keys (D.draw draws.now) (N.passes net.now))
            events.now self.old self.new) }
        ensures stopped { IfErr result (λ fault. IsStopped
            (environment self.old.keys (D.draw draws.now) (N.passes net.now))
            self.old (event_values events.now) fault.0 fault.1 self.new) }
        ensures keeps { KeepsKeysAndMirrors self.old self.new }
    {
        self.cite_soundness();
        let mut made = 0;
        for event in events {
            match self.step(rt, event, net, draws) {
                Ok(_) => made += 1,
                Err(fault) => return Err((made, fault)),
            }
        }
        Ok(made)
    }
}

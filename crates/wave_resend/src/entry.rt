//! A wave of a book, with its state.

ghost use Rattle.std.specs.Prelude.{◌≡◌, ◌==◌, ◌&&◌, OnErr, OnOk};
ghost use Rattle.stat_plan.specs.Machine.Waves.{Closed, growing, is_open, is_running, ticked, ticked_timer, unsent, is_empty_open};
ghost use Rattle.wave_resend.specs.Books.{all_sent, armed, is_before, untouched, with_state};
ghost use Rattle.wave_resend.specs.States.{wave_state};

use crate::state::WaveState;
use rank_set::RankSet;
use stat_plan::Timer;
use std::alloc::{AllocError, Global};
use std::marker::Model;

/// A wave that the node works on.
#[derive(Drop)]
pub struct OpenWave {
    covered: RankSet,
    sent: RankSet,
    timer: Timer,
}

/// A wave of a book.
#[derive(Drop)]
pub struct Entry {
    stream: u8,
    wave: u8,
    // None if the wave has ended.
    state: Option<OpenWave>,
}

impl Model for Entry {
    ghost use Rattle.wave_resend.specs.Books.{WaveAt};
    ghost use Rattle.wave_resend.specs.Codes.{coded_wave_at};
    ghost use Rattle.wave_resend.specs.States.{open_state};

    ghost Value = { WaveAt };

    ghost coded = { coded_wave_at };

    ghost view = { λ e. record { stream = e.stream; wave = e.wave; state = open_state e.state } };
}

// A timer one tick later.
fn ticked(timer: Timer) -> Timer
    ensures { result ≡ ticked_timer timer }
{
    match timer {
        Timer::Off => Timer::Off,
        Timer::Running(t) if t > 1 => Timer::Running(t - 1),
        Timer::Running(_) | Timer::Fired => Timer::Fired,
    }
}

impl OpenWave {
    // These of its ranks were passed on, and its timer is off.
    fn stop(&mut self, sent: RankSet)
        ensures { self.new ≡ record { covered = self.old.covered; sent = sent; timer = Timer.Off } }
    {
        self.sent = sent;
        self.timer = Timer::Off;
    }
}

impl Entry {
    /// A wave of which nothing has come in yet.
    pub fn untouched(alloc: Global, s: u8, w: u8) -> Entry
        ensures { result ≡ record { stream = s; wave = w; state = untouched } }
    {
        Entry {
            stream: s,
            wave: w,
            state: Some(OpenWave {
                covered: RankSet::new(alloc),
                sent: RankSet::new(alloc),
                timer: Timer::Off,
            }),
        }
    }

    /// Its stream and number.
    pub fn key(&self) -> (u8, u8)
        ensures { result ≡ (self.now.stream, self.now.wave) }
    {
        (self.stream, self.wave)
    }

    /// Whether it comes behind wave `w` of stream `s`.
    pub fn is_after(&self, s: u8, w: u8) -> bool
        ensures { result ≡ is_before (s, w) (self.now.stream, self.now.wave) }
    {
        s < self.stream || s == self.stream && w < self.wave
    }

    /// Its state.
    pub fn state(&self) -> WaveState<'_>
        ensures { wave_state result ≡ self.now.state }
    {
        match &self.state {
            Some(wave) => WaveState::Open {
                covered: &wave.covered,
                sent: &wave.sent,
                timer: wave.timer,
            },
            None => WaveState::Closed,
        }
    }

    /// Whether it is open.
    pub fn is_open(&self) -> bool
        ensures { result ≡ is_open self.now.state }
    {
        self.state.is_some()
    }

    /// Whether it is open and its timer runs.
    pub fn is_running(&self) -> bool
        ensures { result ≡ is_running self.now.state }
    {
        match &self.state {
            Some(wave) => matches!(wave.timer, Timer::Running(_)),
            None => false,
        }
    }

    /// Whether it is an open wave of this stream, and nothing of it has come in yet.
    pub fn is_empty_of(&self, s: u8) -> bool
        ensures { result ≡ (self.now.stream == s) && is_empty_open self.now.state }
    {
        match &self.state {
            Some(wave) => self.stream == s && wave.covered.first().is_none(),
            None => false,
        }
    }

    /// These ranks have come in. On failure it is unchanged.
    pub fn grow(&mut self, ranks: &RankSet) -> Result<(), AllocError>
        ensures ok { OnOk result (self.new ≡ with_state (growing ranks.now self.old.state) self.old) }
        ensures err { OnErr result (self.new ≡ self.old) }
    {
        match &mut self.state {
            Some(wave) => wave.covered.union_into(ranks),
            None => Ok(()),
        }
    }

    /// All that has come in was passed on, and the timer is off. On failure it is unchanged.
    pub fn mark_sent(&mut self) -> Result<(), AllocError>
        ensures ok { OnOk result (self.new ≡ with_state (all_sent self.old.state) self.old) }
        ensures err { OnErr result (self.new ≡ self.old) }
    {
        if let Some(wave) = &mut self.state {
            let sent = wave.covered.copy()?;
            wave.stop(sent);
        }
        Ok(())
    }

    /// Its timer runs for `t` ticks.
    pub fn arm(&mut self, t: u16)
        ensures { self.new ≡ with_state (armed t self.old.state) self.old }
    {
        if let Some(wave) = &mut self.state {
            wave.timer = Timer::Running(t);
        }
    }

    /// Its timer goes on by one tick.
    pub fn tick(&mut self)
        ensures { self.new ≡ with_state (ticked self.old.state) self.old }
    {
        if let Some(wave) = &mut self.state {
            wave.timer = ticked(wave.timer);
        }
    }

    /// Nothing of it was passed on yet, and its timer is off.
    pub fn reset(&mut self, alloc: Global)
        ensures { self.new ≡ with_state (unsent self.old.state) self.old }
    {
        if let Some(wave) = &mut self.state {
            wave.stop(RankSet::new(alloc));
        }
    }

    /// It has ended.
    pub fn close(&mut self)
        ensures { self.new ≡ with_state Closed self.old }
    {
        self.state = None;
    }
}

//! What a script says: the streams of a job, and the nodes that are to be lost.

ghost use Rattle.std.specs.Prelude.{◌≡◌, ◌<◌, ◌*◌, ◌==◌, true, MatchOption, None, [], find, length, slice_get};
ghost use Rattle.overlay_setup.specs.Scripts.{Scripted, Stream, IsScript, IsStream, is_in_wave};

use std::marker::Model;

/// The most streams of a job; their numbers are below it.
pub const STREAM_LIMIT: u32 = 8;

/// The most waves of a stream.
pub const WAVE_LIMIT: u32 = 16;

/// The most sample times of a wave.
pub const SAMPLE_LIMIT: u32 = 64;

/// The most ticks of a timeout.
pub const TICK_LIMIT: u32 = 1_000;

/// The most nodes that a script may lose.
pub const FAULT_LIMIT: u32 = 256;

/// When the nodes of a stream pass on what they have of a wave.
#[derive(Clone, Copy, Debug, PartialEq, Eq)]
pub enum Mode {
    /// Once all daemons below have come in.
    WaitForAll,
    /// Once all daemons below have come in, or this many ticks after something came in: 1 to `TICK_LIMIT`.
    TimeOut(u16),
    /// At once.
    DontWait,
}

/// How a stream sees call paths.
#[derive(Clone, Copy, Debug, PartialEq, Eq)]
pub enum Grain {
    /// As they are, with the line that a frame may end with.
    Line,
    /// By functions alone: each frame without its line.
    Function,
}

/// A node that is to be lost.
#[derive(Clone, Copy, Debug, PartialEq, Eq, Drop)]
pub struct Fault {
    /// The node, which is not the front end.
    pub node: u32,
    /// After how many events of its own it is lost.
    pub after: u32,
    /// How many of the first packets on each link out of it stay.
    pub keep: u32,
}

/// A stream: some daemons, whose samples are merged wave by wave.
#[derive(Drop)]
pub struct StreamDef {
    number: u8,
    mode: Mode,
    waves: u8,
    samples: u8,
    grain: Grain,
    daemons: Vec<u32>,
}

impl Model for StreamDef {
    ghost use Rattle.overlay_setup.specs.Scripts.{Stream, stream, IsStream};

    ghost Value = { Stream };

    ghost view = { λ a. stream a.number a.mode a.waves a.samples a.grain a.daemons.items };

    ghost invariant = { λ a. IsStream (stream a.number a.mode a.waves a.samples a.grain a.daemons.items) };
}

impl StreamDef {
    ghost use Rattle.overlay_setup.specs.Scripts.{stream};

    /// The stream with this number, mode, number of waves, number of sample times of each wave, grain, and daemons in
    /// ascending order. It allocates nothing.
    pub fn new(
        number: u8,
        mode: Mode,
        waves: u8,
        samples: u8,
        grain: Grain,
        daemons: Vec<u32>,
    ) -> StreamDef
        requires { IsStream (stream number mode waves samples grain daemons.items) }
        ensures { result ≡ stream number mode waves samples grain daemons.items }
    {
        StreamDef {
            number,
            mode,
            waves,
            samples,
            grain,
            daemons,
        }
    }

    /// Its number, below `STREAM_LIMIT`.
    pub fn number(&self) -> u8
        ensures { result ≡ self.now.number }
    {
        self.number
    }

    /// When its nodes pass on what they have.
    pub fn mode(&self) -> Mode
        ensures { result ≡ self.now.mode }
    {
        self.mode
    }

    /// How many waves it has: 1 to `WAVE_LIMIT`.
    pub fn waves(&self) -> u8
        ensures { result ≡ self.now.waves }
    {
        self.waves
    }

    /// How many sample times each wave has: 1 to `SAMPLE_LIMIT`.
    pub fn samples(&self) -> u8
        ensures { result ≡ self.now.samples }
    {
        self.samples
    }

    /// How it sees call paths.
    pub fn grain(&self) -> Grain
        ensures { result ≡ self.now.grain }
    {
        self.grain
    }

    /// Its daemons, ascending, at least one.
    pub fn daemons(&self) -> &[u32]
        ensures { result.now ≡ self.now.daemons }
    {
        self.daemons.as_slice()
    }
}

/// The index of the stream with a number, if there is one.
pub fn stream_index(streams: &[StreamDef], s: u8) -> Option<usize>
    ensures { MatchOption result (find (λ x. x.number == s) streams.now ≡ None)
        (λ i. (i < length streams.now) × (find (λ x. x.number == s) streams.now ≡ slice_get streams.now i)) }
{
    for (i, x) in streams.iter().enumerate() {
        if x.number() == s {
            return Some(i);
        }
    }
    None
}

/// The sample times of a wave.
#[derive(Clone, Copy)]
pub struct WaveTimes {
    /// How many sample times each wave of the stream has.
    pub samples: u8,
    /// The number of the wave, from 0.
    pub wave: u8,
}

impl WaveTimes {
    /// The first of the times.
    pub fn first(self) -> u32
        ensures value { result ≡ self.wave * self.samples }
        ensures of_wave { 0 < self.samples → is_in_wave self.samples self.wave result ≡ true }
    {
        u32::from(self.wave) * u32::from(self.samples)
    }

    /// Whether a time is one of them.
    pub fn contains(self, time: u32) -> bool
        ensures { result ≡ is_in_wave self.samples self.wave time }
    {
        let first = self.first();
        first <= time && time < first + u32::from(self.samples)
    }
}

/// What a script says.
#[derive(Drop)]
pub struct Script {
    streams: Vec<StreamDef>,
    faults: Vec<Fault>,
}

impl Model for Script {
    ghost use Rattle.overlay_setup.specs.Scripts.{Scripted, scripted, IsScript};

    ghost Value = { Scripted };

    ghost view = { λ a. scripted a.streams.items a.faults.items };

    ghost invariant = { λ a. IsScript (scripted a.streams.items a.faults.items) };
}

impl Script {
    ghost use Rattle.overlay_setup.specs.Scripts.{scripted};

    /// The script of these streams, ascending and at least one, and these faults, ascending by node. It allocates
    /// nothing.
    pub fn new(streams: Vec<StreamDef>, faults: Vec<Fault>) -> Script
        requires { IsScript (scripted streams.items faults.items) }
        ensures { result ≡ scripted streams.items faults.items }
    {
        Script { streams, faults }
    }

    /// The invariant of a script, for the prover. It does nothing.
    pub fn invariant(&self)
        ensures { IsScript self.now }
    {
        // for the proof: the invariant of the value
        let _ = &self.streams;
    }

    /// The streams, ascending by number.
    pub fn streams(&self) -> &[StreamDef]
        ensures { result.now ≡ self.now.streams }
    {
        self.streams.as_slice()
    }

    /// The nodes that are to be lost, ascending.
    pub fn faults(&self) -> &[Fault]
        ensures { result.now ≡ self.now.faults }
    {
        self.faults.as_slice()
    }
}

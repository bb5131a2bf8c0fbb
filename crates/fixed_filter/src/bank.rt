//! Banks of channels.

ghost use Rattle.std.specs.Prelude.{◌≡◌, ◌<◌, [], OnErr, OnOk, Some, length, slice_get};
ghost use Rattle.fixed_filter.specs.Replies.{reply_map};
ghost use Rattle.fixed_filter.specs.Banks.{IsShape, after_sample, filter_at, fresh, reply_of, with_channel};

use crate::channel::Channel;
use crate::reply::Reply;
use crate::shape::Shape;
use fixed_word::{RawWord, Word};
use std::alloc::{AllocError, Global};
use std::marker::Model;

/// Channels of one shape. Each channel has its taps, and as many past samples of its own. Taps, samples and outputs are
/// bits, and the shape has their numbers of fraction bits. Contracts see the shape and the list of the channels.
#[derive(Drop)]
pub struct Bank<T: Word> {
    alloc: Global,
    shape: Shape,
    channels: Vec<Channel<T>>,
}

impl<T: Word> Model for Bank<T> {
    ghost use Rattle.fixed_filter.specs.Banks.{Filters, IsShape};

    ghost Value = { Filters T };

    ghost view = { λ b. record { shape = b.shape; channels = b.channels.items } };

    ghost invariant = { λ b. IsShape T.BITS b.shape };
}

impl<T: Word> Bank<T> {
    /// Returns a bank of this shape without channels. This does not allocate. Precondition: each number of fraction
    /// bits is at most the width.
    pub fn new(alloc: Global, shape: Shape) -> Self
        requires { IsShape T.BITS shape }
        ensures { result ≡ record { shape = shape; channels = [] } }
    {
        Bank {
            alloc,
            shape,
            channels: Vec::new(alloc),
        }
    }

    /// Adds a channel with these taps, in units of `2^-coef_frac`. The first tap is that of the newest sample. The
    /// channel has a past sample of 0 for each tap, and its number is the number of channels before. Fails if memory
    /// runs out; the bank is then unchanged. Precondition: there is a tap.
    pub fn add_channel(&mut self, taps: &[T]) -> Result<(), AllocError>
        requires { 0 < length taps.now }
        ensures added { OnOk result (self.new ≡ with_channel (fresh T.ZERO taps.now) self.old) }
        ensures kept { OnErr result (self.new ≡ self.old) }
    {
        let channel = Channel::new(self.alloc, taps)?;
        self.channels.push(channel)?;
        Ok(())
    }

    /// Puts a sample, in units of `2^-sample_frac`, in front of the channel's past samples, drops the oldest one, and
    /// returns the output, in units of `2^-out_frac`: the sum of the products of taps and past samples, each rounded
    /// down. If a partial sum does not fit, the reply is `Overflow` with the index of the first such tap, and the
    /// channel has taken the sample all the same. This reads each tap at most once, and does not allocate.
    /// Precondition: the channel exists.
    pub fn push(&mut self, channel: usize, sample: T) -> Reply<T>
        requires { channel < length self.old.channels }
        ensures held { self.new ≡ after_sample channel sample self.old }
        ensures reply { reply_map T.value result
            ≡ reply_of T.value T.SIGNED T.BITS self.old.shape (filter_at self.new channel) }
    {
        let shape = self.shape;
        let channel = &mut self.channels[channel];
        channel.push(sample, &shape)
    }

    /// Returns the number of channels.
    pub fn channels(&self) -> usize
        ensures { result ≡ length self.now.channels }
    {
        self.channels.len()
    }

    /// Returns the number of taps of a channel, which is also the number of its past samples. Precondition: the channel
    /// exists.
    pub fn taps(&self, channel: usize) -> usize
        requires { channel < length self.now.channels }
        ensures taps { result ≡ length (filter_at self.now channel).taps }
        ensures past { result ≡ length (filter_at self.now channel).past }
    {
        let channel = &self.channels[channel];
        channel.past().len()
    }

    /// Returns a tap of a channel, in units of `2^-coef_frac`. The tap at 0 is that of the newest sample.
    /// Preconditions: the channel exists, and `index` is below the number of its taps.
    pub fn tap(&self, channel: usize, index: usize) -> T
        requires channel { channel < length self.now.channels }
        requires index { index < length (filter_at self.now channel).taps }
        ensures { slice_get (filter_at self.now channel).taps index ≡ Some result }
    {
        let channel = &self.channels[channel];
        channel.taps()[index]
    }

    /// Returns a past sample of a channel, in units of `2^-sample_frac`. The newest one is at 0. Preconditions: the
    /// channel exists, and `index` is below the number of its taps.
    pub fn past(&self, channel: usize, index: usize) -> T
        requires channel { channel < length self.now.channels }
        requires index { index < length (filter_at self.now channel).taps }
        ensures { slice_get (filter_at self.now channel).past index ≡ Some result }
    {
        let channel = &self.channels[channel];
        channel.past()[index]
    }
}

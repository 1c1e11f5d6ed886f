// A port over memory, for tests and for scripts that the kernel makes itself.
ghost use Rattle.std.specs.Prelude.{◌≡◌, ◌≤◌, ◌<◌, ◌+◌, ◌-◌, ◌++◌, [], length, take, drop, min, Contains, IfOk, OnErr, IsErr, ◌↔◌, ◌⊎◌, vec_len, vec_capacity};
ghost use Rattle.port_io.specs.Memory.{Memory, KeepsSettings, new_memory, state_of};
ghost use Rattle.std.specs.Io.{ReadsAtMost, WritesAtMost};
ghost use Rattle.port_io.specs.Ports.{Takes, Puts, EndsAt, CountsBytes, CountsEmpty, CountsFaults, raised};

use crate::{Port, PortFault};
use std::alloc::{AllocError, Global};
use std::marker::Model;

/// Bytes to read and room to write, in pieces, with calls that fail where the caller said so.
#[derive(Drop)]
pub struct MemPort {
    input: Vec<u8>,
    at: usize,
    output: Vec<u8>,
    piece: usize,
    room: usize,
    bad_reads: Vec<u64>,
    bad_writes: Vec<u64>,
    reads: u64,
    writes: u64,
    read_faults: u64,
    write_faults: u64,
    bytes_read: u64,
    empty_reads: u64,
}

impl Model for MemPort {
    ghost Value = { Memory };

    ghost view = { λ p. record {
      left = drop p.at p.input.items;
      written = p.output.items;
      piece = p.piece;
      room = p.room;
      bad_reads = p.bad_reads.items;
      bad_writes = p.bad_writes.items;
      reads = p.reads;
      writes = p.writes;
      read_faults = p.read_faults;
      write_faults = p.write_faults;
      bytes_read = p.bytes_read;
      empty_reads = p.empty_reads;
    } };

    ghost invariant = { λ p. (p.at ≤ vec_len p.input) × (1 ≤ p.piece) × (vec_len p.output + p.room ≤ vec_capacity p.output) };
}

/// A port that reads `input` and has room for `room` bytes of output. Each call moves at most `piece` bytes. The k-th
/// read fails where k, counted from 1, is in `bad_reads`, the k-th write where k is in `bad_writes` or the room is used
/// up. It takes all its memory here.
pub fn mem_port(
    alloc: Global,
    input: &[u8],
    piece: usize,
    room: usize,
    bad_reads: &[u64],
    bad_writes: &[u64],
) -> Result<MemPort, AllocError>
    requires { 1 ≤ piece }
    ensures { IfOk result (λ port. port ≡ new_memory input.now piece room bad_reads.now bad_writes.now) }
{
    Ok(MemPort {
        input: Vec::from_slice(alloc, input)?,
        at: 0,
        output: Vec::with_capacity(alloc, room)?,
        piece,
        room,
        bad_reads: Vec::from_slice(alloc, bad_reads)?,
        bad_writes: Vec::from_slice(alloc, bad_writes)?,
        reads: 0,
        writes: 0,
        read_faults: 0,
        write_faults: 0,
        bytes_read: 0,
        empty_reads: 0,
    })
}

// Copies the bytes from a place on into the front of a buffer, at most a piece.
fn give(input: &[u8], at: usize, piece: usize, buf: &mut [u8]) -> usize
    requires at { at ≤ length input.now }
    requires piece { 1 ≤ piece }
    requires room { 0 < length buf.old }
    ensures count { result ≡ min (min piece (length buf.old)) (length input.now - at) }
    ensures end { result ≡ 0 → drop at input.now ≡ [] }
    ensures bytes { drop at input.now ≡ take result buf.new ++ drop (at + result) input.now }
{
    let rest = &input[at..];
    let count = piece.min(buf.len()).min(rest.len());
    buf[..count].copy_from_slice(&rest[..count]);
    count
}

impl Port for MemPort {
    ghost state = { λ m. state_of m };

    fn output(&self) -> Option<&[u8]> {
        Some(&self.output)
    }

    fn read(&mut self, buf: &mut [u8]) -> Result<usize, PortFault>
        requires { 0 < length buf.old }
        ensures bound { ReadsAtMost result buf.new }
        ensures left { Takes (state_of self.old).left (state_of self.new).left result buf.new }
        ensures end { EndsAt (state_of self.old).left result }
        ensures bytes_read { CountsBytes (state_of self.old).bytes_read (state_of self.new).bytes_read result }
        ensures empty_reads { CountsEmpty (state_of self.old).empty_reads (state_of self.new).empty_reads result }
        ensures read_faults { CountsFaults (state_of self.old).read_faults (state_of self.new).read_faults result }
        ensures written { (state_of self.new).written ≡ (state_of self.old).written }
        ensures write_faults { (state_of self.new).write_faults ≡ (state_of self.old).write_faults }
        ensures reads { self.new.reads ≡ raised self.old.reads 1 }
        ensures fails { IsErr result ↔ Contains self.old.bad_reads self.new.reads }
        ensures moved { IfOk result (λ n. n ≡ min (min self.old.piece (length buf.old)) (length self.old.left)) }
        ensures writes { self.new.writes ≡ self.old.writes }
        ensures room { self.new.room ≡ self.old.room }
        ensures settings { KeepsSettings self.old self.new }
    {
        self.reads = self.reads.saturating_add(1);
        if self.bad_reads.contains(&self.reads) {
            self.read_faults = self.read_faults.saturating_add(1);
            return Err(PortFault);
        }
        let count = give(&self.input, self.at, self.piece, buf);
        self.at += count;
        if count == 0 {
            self.empty_reads = self.empty_reads.saturating_add(1);
        }
        self.bytes_read = self.bytes_read.saturating_add(count as u64);
        Ok(count)
    }

    fn write(&mut self, bytes: &[u8]) -> Result<usize, PortFault>
        ensures some { IfOk result (λ n. 0 < length bytes.now → 1 ≤ n) }
        ensures bound { WritesAtMost result bytes.now }
        ensures written { Puts (state_of self.old).written (state_of self.new).written result bytes.now }
        ensures write_faults { CountsFaults (state_of self.old).write_faults (state_of self.new).write_faults result }
        ensures left { (state_of self.new).left ≡ (state_of self.old).left }
        ensures read_faults { (state_of self.new).read_faults ≡ (state_of self.old).read_faults }
        ensures bytes_read { (state_of self.new).bytes_read ≡ (state_of self.old).bytes_read }
        ensures empty_reads { (state_of self.new).empty_reads ≡ (state_of self.old).empty_reads }
        ensures writes { self.new.writes ≡ raised self.old.writes 1 }
        ensures fails { IsErr result ↔ (Contains self.old.bad_writes self.new.writes ⊎ (self.old.room ≡ 0)) }
        ensures moved { IfOk result (λ n. n ≡ min (min self.old.piece (length bytes.now)) self.old.room) }
        ensures room { IfOk result (λ n. self.new.room + n ≡ self.old.room) }
        ensures no_room_lost { OnErr result (self.new.room ≡ self.old.room) }
        ensures reads { self.new.reads ≡ self.old.reads }
        ensures settings { KeepsSettings self.old self.new }
    {
        self.writes = self.writes.saturating_add(1);
        if self.room == 0 || self.bad_writes.contains(&self.writes) {
            self.write_faults = self.write_faults.saturating_add(1);
            return Err(PortFault);
        }
        let count = self.piece.min(bytes.len()).min(self.room);
        self.output.extend_from_slice(&bytes[..count]).unwrap();
        self.room -= count;
        Ok(count)
    }
}

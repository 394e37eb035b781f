//! The lists that the forms in memory are made from: files, calls that fail, and cuts of wires.

use ug_types::{ByteList, NumberList, Sequence};

/// A file of a site in memory.
#[derive(Drop)]
pub struct File {
    pub name: ByteList,
    pub bytes: ByteList,
}

pub type FileList = Sequence<File>;

/// The kinds of calls whose failures can be listed.
#[derive(Clone, Copy, PartialEq, Eq)]
pub enum CallKind {
    Pick,
    Read,
    Wire,
    Write,
}

/// A call that is to fail. The calls of each kind are numbered by themselves from 1.
#[derive(Clone, Copy, PartialEq, Eq)]
pub struct FailAt {
    pub call: CallKind,
    pub number: u32,
}

pub type CallList = Sequence<FailAt>;

/// The number of bytes that the wires to a peer take before one `send` fails.
#[derive(Drop)]
pub struct Cut {
    pub peer: ByteList,
    pub total: u64,
}

pub type CutList = Sequence<Cut>;

/// The numbers of the sessions whose `begin` fails on the wires to a peer.
#[derive(Drop)]
pub(crate) struct BeginFails {
    pub peer: ByteList,
    pub sessions: NumberList,
}

/// What a wire was made for: the folder, and the name of the peer.
#[derive(Drop)]
pub(crate) struct Made {
    pub dir: ByteList,
    pub peer: ByteList,
}

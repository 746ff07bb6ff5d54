// What a line asks for.
use crate::notation::Notation;
use messages::parts::{Origin, Write};
use std::alloc::Global;
use texts::{FromWords, Misread, hex_bytes, integer};

#[derive(Clone, Copy)]
pub(crate) enum SettingKind {
    Colours,
    Links,
}

impl TryFrom<&[u8]> for SettingKind {
    type Error = Misread;

    fn try_from(word: &[u8]) -> Result<SettingKind, Misread> {
        match word {
            b"colour" => Ok(SettingKind::Colours),
            b"link" => Ok(SettingKind::Links),
            _ => Err(Misread::Form),
        }
    }
}

#[derive(Clone, Copy)]
pub(crate) enum SummaryKind {
    Exact,
    Filter,
}

impl TryFrom<&[u8]> for SummaryKind {
    type Error = Misread;

    fn try_from(word: &[u8]) -> Result<SummaryKind, Misread> {
        match word {
            b"exact" => Ok(SummaryKind::Exact),
            b"bloom" => Ok(SummaryKind::Filter),
            _ => Err(Misread::Form),
        }
    }
}

#[derive(Drop)]
pub(crate) enum Command<T> {
    Kind(SettingKind, SummaryKind),
    /// Suites, stamp and nodes.
    Session(usize, u32, Vec<u64>),
    Move(Origin),
    Read(u64),
    Write(Write<T>),
    Send,
    Message(Vec<u8>),
    Pack(Vec<u64>),
    /// A summary's bytes, and a node.
    Names(Vec<u8>, u64),
    /// A seed, and a node.
    Hash(u32, u64),
}

/// The form of each command.
pub(crate) const FORMS: &[&str] = &[
    "kind SETTING SUMMARY",
    "session SUITES STAMP NODE..",
    "move SUITE SLOT SNAPSHOT",
    "read NODE",
    "write NODE SETTING",
    "send",
    "message HEX",
    "pack NODE..",
    "names HEX NODE",
    "hash SEED NUMBER",
];

impl<T: Notation> FromWords for Command<T> {
    fn from_words(heap: Global, words: &[&[u8]]) -> Result<Command<T>, Misread> {
        match words {
            [b"kind", setting, summary] => Ok(Command::Kind(
                SettingKind::try_from(*setting)?,
                SummaryKind::try_from(*summary)?,
            )),
            [b"session", suites, stamp, nodes @ ..] => Ok(Command::Session(
                integer(suites)?,
                integer(stamp)?,
                integers(heap, nodes)?,
            )),
            [b"move", suite, slot, snapshot] => Ok(Command::Move(Origin {
                suite: integer(suite)?,
                slot: integer(slot)?,
                snapshot: integer(snapshot)?,
            })),
            [b"read", node] => Ok(Command::Read(integer(node)?)),
            [b"write", node, setting @ ..] => Ok(Command::Write(Write {
                node: integer(node)?,
                setting: T::parse(setting).ok_or(Misread::Form)?,
            })),
            [b"send"] => Ok(Command::Send),
            [b"message", text] => Ok(Command::Message(bytes(heap, text)?)),
            [b"pack", nodes @ ..] => Ok(Command::Pack(integers(heap, nodes)?)),
            [b"names", text, node] => Ok(Command::Names(bytes(heap, text)?, integer(node)?)),
            [b"hash", seed, node] => Ok(Command::Hash(integer(seed)?, integer(node)?)),
            _ => Err(Misread::Form),
        }
    }
}

fn integers(heap: Global, words: &[&[u8]]) -> Result<Vec<u64>, Misread> {
    words.iter().map(|word| integer(word)).try_collect(heap)
}

fn bytes(heap: Global, word: &[u8]) -> Result<Vec<u8>, Misread> {
    hex_bytes(heap, word)?.ok_or(Misread::Form)
}

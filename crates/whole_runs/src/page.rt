//! The lines that are written, each the text of one JSON object.

use json::Writer;
use mv_message::{Message, Party};
use std::alloc::Global;
use std::mem;

/// Lines, each ended by its line feed. A line is written piece by piece, its keys in byte order, and no value is made of it first: a
/// function that has values at hand has to be proved to drop each of them wherever memory is refused.
///
/// Where memory is refused the page notes it, and goes on. So whoever writes asks once, at the end, and has one way out.
#[derive(Drop)]
pub(crate) struct Page {
    alloc: Global,
    bytes: Vec<u8>,
    /// Whether memory was refused for something that was to be written.
    refused: bool,
}

impl Page {
    /// No lines.
    pub(crate) fn new(alloc: Global) -> Page {
        Page {
            alloc,
            bytes: Vec::new(alloc),
            refused: false,
        }
    }

    /// Notes that memory was refused for something that was to be written.
    pub(crate) fn refuse(&mut self) {
        self.refused = true;
    }

    /// Notes so where a piece was not written.
    fn note(&mut self, is_written: bool) {
        self.refused = self.refused || !is_written;
    }

    /// Whether all was written.
    pub(crate) fn is_whole(&self) -> bool {
        !self.refused
    }

    /// Where the memory for a line comes from.
    pub(crate) fn alloc(&self) -> Global {
        self.alloc
    }

    /// All lines.
    pub(crate) fn as_bytes(&self) -> &[u8] {
        self.bytes.as_slice()
    }

    /// Writes a text as it stands.
    fn put(&mut self, text: &str) {
        let written = self.bytes.extend_from_slice(text.as_bytes());
        self.note(written.is_ok());
    }

    /// Writes a line.
    pub(crate) fn line(&mut self, text: &str) {
        self.put(text);
        self.end_line()
    }

    /// Ends a line.
    pub(crate) fn end_line(&mut self) {
        self.put("\n")
    }

    /// Writes the comma before a member or an element, but for the first.
    fn separate(&mut self) {
        if self.bytes.ends_with(b"{") || self.bytes.ends_with(b"[") {
            return;
        }
        self.put(",")
    }

    /// Begins an object that is a line, or the value of a key.
    pub(crate) fn begin_object(&mut self) {
        self.put("{")
    }

    /// Begins an object that is an element of a list.
    pub(crate) fn begin_element(&mut self) {
        self.separate();
        self.put("{")
    }

    /// Ends an object.
    pub(crate) fn end_object(&mut self) {
        self.put("}")
    }

    /// Ends an object that is a line.
    pub(crate) fn end_object_and_line(&mut self) {
        self.put("}\n")
    }

    /// Begins a list.
    pub(crate) fn begin_list(&mut self, key: &str) {
        self.key(key);
        self.put("[")
    }

    /// Ends a list.
    pub(crate) fn end_list(&mut self) {
        self.put("]")
    }

    /// Writes a key.
    pub(crate) fn key(&mut self, key: &str) {
        self.separate();
        self.put("\"");
        self.put(key);
        self.put("\":")
    }

    /// Writes a key with the value null.
    pub(crate) fn nothing(&mut self, key: &str) {
        self.key(key);
        self.put("null")
    }

    /// Writes a key with a number.
    pub(crate) fn number(&mut self, key: &str, number: u64) {
        self.key(key);
        self.put_number(number)
    }

    /// Writes a number.
    fn put_number(&mut self, number: u64) {
        let mut writer = Writer::new(mem::replace(&mut self.bytes, Vec::new(self.alloc)));
        let written = writer.u64(number);
        self.bytes = writer.into_inner();
        self.note(written.is_ok());
    }

    /// Writes a key with a truth value.
    pub(crate) fn flag(&mut self, key: &str, flag: bool) {
        self.key(key);
        self.put(if flag { "true" } else { "false" })
    }

    /// Writes a key with a text.
    pub(crate) fn text(&mut self, key: &str, text: &str) {
        self.key(key);
        self.put_text(text)
    }

    /// Writes a text as a value.
    fn put_text(&mut self, text: &str) {
        let mut writer = Writer::new(mem::replace(&mut self.bytes, Vec::new(self.alloc)));
        let written = writer.string(text);
        self.bytes = writer.into_inner();
        self.note(written.is_ok());
    }

    /// Writes a key with a message.
    pub(crate) fn message(&mut self, key: &str, message: &Message) {
        self.key(key);
        let written = mv_json::write_text(self.alloc, message, &mut self.bytes);
        self.note(written.is_ok());
    }

    /// Writes a key with a list of parties.
    pub(crate) fn parties(&mut self, key: &str, parties: &[Party]) {
        self.begin_list(key);
        for party in parties {
            self.separate();
            self.put_number(u64::from(*party));
        }
        self.end_list()
    }
}

//! Objects that are written field by field, as compact text.
ghost use Rattle.std.specs.Prelude.{◌≡◌, [], OnOk, ◌++◌, false, Some};
ghost use Rattle.json.specs.Lex.{tokens};
ghost use Rattle.json.specs.Print.{print};
ghost use Rattle.json.specs.Token.{begin_object, end_object, end_array, begin_array, key as key_token};
ghost use Rattle.serde_json.specs.Data.{object, no_members, string as string_data};
ghost use Rattle.serde_json.specs.View.{view};
ghost use Rattle.serde_json.specs.Written.{has_float};
ghost use Rattle.gcs_meaning.specs.Pairs.{AreRising};
ghost use Rattle.gcs_render.specs.Fields.{with_pairs};
ghost use Rattle.gcs_render.specs.Shown.{AreGood, in_text, show_where, with_token, with_tokens, with_value, send_pairs};
ghost use Rattle.gcs_render.specs.Writing.{sent};

use crate::sink::FieldSink;
use gcs_meaning::{Pairs, Text};
use json::{Reader, Scratch, Writer};
use serde_json::Value;
use std::alloc::{AllocError, Global};

/// Room for the texts that are made of parts, as an entity tag: enough for a name of usual length.
pub(crate) const PARTS_ROOM: usize = 128;

/// A text to which objects are written.
#[derive(Drop)]
pub(crate) struct FieldWriter {
    alloc: Global,
    out: Writer,
}

impl FieldWriter {
    /// It writes behind what `text` holds.
    pub(crate) fn new(alloc: Global, text: Vec<u8>) -> FieldWriter
        ensures { sent result ≡ (text.items, []) }
    {
        FieldWriter {
            alloc,
            out: Writer::new(text),
        }
    }

    pub(crate) fn alloc(&self) -> Global {
        self.alloc
    }

    pub(crate) fn into_text(self) -> Vec<u8>
        ensures { result.items ≡ (sent self).0 ++ print (sent self).1 }
    {
        let FieldWriter { alloc: _, out } = self;
        out.into_inner()
    }

    pub(crate) fn key(&mut self, key: &str) -> Result<(), AllocError>
        ensures { OnOk result (sent self.new ≡ with_token (key_token key.now) (sent self.old)) }
    {
        self.out.key(key)
    }

    pub(crate) fn begin_object(&mut self) -> Result<(), AllocError>
        ensures { OnOk result (sent self.new ≡ with_token begin_object (sent self.old)) }
    {
        self.out.begin_object()
    }

    pub(crate) fn end_object(&mut self) -> Result<(), AllocError>
        ensures { OnOk result (sent self.new ≡ with_token end_object (sent self.old)) }
    {
        self.out.end_object()
    }

    /// The field of this key, an object that is open.
    pub(crate) fn begin_inner(&mut self, key: &str) -> Result<(), AllocError>
        ensures { OnOk result (sent self.new ≡ with_token begin_object (with_token (key_token key.now) (sent self.old))) }
    {
        self.out.key(key)?;
        self.out.begin_object()?;
        Ok(())
    }

    /// The field of this key, a list that is open.
    pub(crate) fn begin_list(&mut self, key: &str) -> Result<(), AllocError>
        ensures { OnOk result (sent self.new ≡ with_token begin_array (with_token (key_token key.now) (sent self.old))) }
    {
        self.out.key(key)?;
        self.out.begin_array()?;
        Ok(())
    }

    pub(crate) fn end_list(&mut self) -> Result<(), AllocError>
        ensures { OnOk result (sent self.new ≡ with_token end_array (sent self.old)) }
    {
        self.out.end_array()
    }

    /// A text of a list.
    pub(crate) fn item(&mut self, text: &str) -> Result<(), AllocError>
        ensures { OnOk result (sent self.new ≡ with_value (string_data text.now) (sent self.old)) }
    {
        self.out.string(text)
    }

    /// The field of this key, with a value.
    #[tactic(auto, unfolding(crate::specs::Shown::show_where))]
    pub(crate) fn value(&mut self, key: &str, value: &Value) -> Result<(), AllocError>
        requires { has_float (view value.now) ≡ false }
        ensures { OnOk result (in_text (sent self.new) ≡ show_where key.now (Some (view value.now)) (in_text (sent self.old))) }
    {
        let text = value.to_string(self.alloc)?;
        self.key(key)?;
        self.copy_tokens(text.as_str())?;
        Ok(())
    }

    /// The tokens of a text of JSON, one by one.
    fn copy_tokens(&mut self, text: &str) -> Result<(), AllocError>
        requires { AreGood (tokens text.now) }
        ensures { OnOk result (sent self.new ≡ with_tokens (tokens text.now) (sent self.old)) }
    {
        let mut scratch = Scratch::new(self.alloc);
        let mut reader = Reader::new(text, &mut scratch)?;
        while let Some(token) = reader.next() {
            self.out.token(token)?;
        }
        Ok(())
    }

    fn pairs(&mut self, pairs: &[(Text, Text)]) -> Result<(), AllocError>
        ensures { OnOk result (sent self.new ≡ send_pairs pairs.now (sent self.old)) }
    {
        for (key, value) in pairs {
            self.out.key(key.as_str())?;
            self.out.string(value.as_str())?;
        }
        Ok(())
    }

    fn pairs_object(&mut self, pairs: &[(Text, Text)]) -> Result<(), AllocError>
        requires { AreRising pairs.now }
        ensures { OnOk result (sent self.new ≡ with_value (object (with_pairs pairs.now no_members)) (sent self.old)) }
    {
        self.begin_object()?;
        self.pairs(pairs)?;
        self.end_object()?;
        Ok(())
    }
}

#[tactic(auto, unfolding(crate::specs::Shown::show_where))]
impl FieldSink for FieldWriter {
    ghost use Rattle.gcs_render.specs.Shown.{in_text};
    ghost use Rattle.gcs_render.specs.Writing.{sent};

    ghost shown = { λ fields. in_text (sent fields) };

    fn text(&mut self, key: &str, value: &str) -> Result<(), AllocError> {
        self.out.key(key)?;
        self.out.string(value)?;
        Ok(())
    }

    fn number(&mut self, key: &str, value: u32) -> Result<(), AllocError> {
        self.out.key(key)?;
        self.out.u64(u64::from(value))?;
        Ok(())
    }

    fn truth(&mut self, key: &str, value: bool) -> Result<(), AllocError> {
        self.out.key(key)?;
        self.out.boolean(value)?;
        Ok(())
    }

    fn pairs_if(&mut self, key: &str, pairs: &Pairs) -> Result<(), AllocError> {
        if pairs.is_empty() {
            return Ok(());
        }
        self.out.key(key)?;
        self.pairs_object(pairs.as_slice())?;
        Ok(())
    }
}

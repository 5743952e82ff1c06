//! What a body says as a short text: a field that is set stands as `label=value`, and as `label=-` where it is removed.
use gcs_meaning::{Expect, List, Set, Text};
use std::alloc::{AllocError, Global};

/// The fields so far, with blanks between them.
#[derive(Drop)]
pub struct Said {
    alloc: Global,
    text: String,
}

impl Said {
    /// No fields.
    pub fn new(alloc: Global) -> Said {
        Said {
            alloc,
            text: String::new(alloc),
        }
    }

    /// The fields as a text, `nothing` where there are none.
    pub fn into_text(self) -> Result<String, AllocError> {
        let Said { alloc, text } = self;
        if text.is_empty() {
            String::from_str(alloc, "nothing")
        } else {
            Ok(text)
        }
    }

    /// Adds a field of this value. `Err`: no memory.
    pub fn put(&mut self, label: &str, value: &str) -> Result<(), AllocError> {
        if !self.text.is_empty() {
            self.text.push(' ')?;
        }
        self.text.push_str(label)?;
        self.text.push('=')?;
        self.text.push_str(value)?;
        Ok(())
    }

    /// Adds a field, where it is given.
    pub fn put_given(&mut self, label: &str, given: &Option<Text>) -> Result<(), AllocError> {
        match given {
            Some(text) => self.put(label, text.as_str()),
            None => Ok(()),
        }
    }

    /// Adds what is done to a text.
    pub fn put_text(&mut self, label: &str, set: &Set<Text>) -> Result<(), AllocError> {
        match set {
            Set::Keep => Ok(()),
            Set::Clear => self.put(label, "-"),
            Set::To(text) => self.put(label, text.as_str()),
        }
    }

    /// Adds what is done to a truth value.
    pub fn put_flag(&mut self, label: &str, set: &Set<bool>) -> Result<(), AllocError> {
        match set {
            Set::Keep => Ok(()),
            Set::Clear => self.put(label, "-"),
            Set::To(true) => self.put(label, "true"),
            Set::To(false) => self.put(label, "false"),
        }
    }

    /// Adds what is done to a number.
    pub fn put_number(&mut self, label: &str, set: &Set<u64>) -> Result<(), AllocError> {
        match set {
            Set::Keep => Ok(()),
            Set::Clear => self.put(label, "-"),
            Set::To(number) => {
                let text = format!(in self.alloc; "{number}")?;
                self.put(label, text.as_str())
            }
        }
    }

    /// Adds what is done to pairs, as `{key=value,removed-,}`.
    pub fn put_pairs(
        &mut self,
        label: &str,
        set: &Set<List<(Text, Option<Text>)>>,
    ) -> Result<(), AllocError> {
        match set {
            Set::Keep => return Ok(()),
            Set::Clear => return self.put(label, "-"),
            Set::To(pairs) => {
                self.put(label, "{")?;
                for (key, value) in pairs.as_slice() {
                    self.put_pair(key.as_str(), value)?;
                }
            }
        }
        self.text.push('}')?;
        Ok(())
    }

    fn put_pair(&mut self, key: &str, value: &Option<Text>) -> Result<(), AllocError> {
        self.text.push_str(key)?;
        match value {
            Some(text) => {
                self.text.push('=')?;
                self.text.push_str(text.as_str())?;
            }
            None => self.text.push('-')?,
        }
        self.text.push(',')?;
        Ok(())
    }

    /// Adds the digests that are expected: a CRC as a number, an MD5 as its bytes.
    pub fn put_digests(&mut self, expect: &Expect) -> Result<(), AllocError> {
        if let Some(crc) = expect.crc {
            let text = format!(in self.alloc; "{crc}")?;
            self.put("crc", text.as_str())?;
        }
        if let Some(md5) = expect.md5 {
            self.put("md5", "")?;
            for byte in md5 {
                let text = format!(in self.alloc; "{byte}.")?;
                self.text.push_str(text.as_str())?;
            }
        }
        Ok(())
    }
}

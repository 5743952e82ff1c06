//! Names of buckets and of objects. Which texts are names is the matter of the readers of names; these types hold any.
ghost use Rattle.std.specs.Prelude.{◌≡◌};

use crate::copying::Copied;
use crate::text::Text;
use std::alloc::AllocError;
use std::marker::Model;

/// The name of an object, seen as the list of its bytes.
#[derive(Drop)]
pub struct Name {
    text: Text,
}

impl Model for Name {
    ghost use Rattle.std.specs.Prelude.{List, ℕ};

    ghost Value = { List ℕ };

    ghost view = { λ n. n.text };
}

impl Name {
    pub fn new(text: Text) -> Name
        ensures { result ≡ text }
    {
        Name { text }
    }

    /// The text of the name, which moves.
    pub fn into_text(self) -> Text
        ensures { result ≡ self }
    {
        self.text
    }

    pub fn as_bytes(&self) -> &[u8]
        ensures { result.now ≡ self.now }
    {
        self.text.as_bytes()
    }

    pub fn as_str(&self) -> &str
        ensures { result.now ≡ self.now }
    {
        self.text.as_str()
    }
}

impl Copied for Name {
    fn copy(&self) -> Result<Name, AllocError> {
        Ok(Name {
            text: self.text.copy()?,
        })
    }
}

/// The name of a bucket, seen as the list of its bytes.
#[derive(Drop)]
pub struct BucketName {
    text: Text,
}

impl Model for BucketName {
    ghost use Rattle.std.specs.Prelude.{List, ℕ};

    ghost Value = { List ℕ };

    ghost view = { λ n. n.text };
}

impl BucketName {
    pub fn new(text: Text) -> BucketName
        ensures { result ≡ text }
    {
        BucketName { text }
    }

    /// The text of the name, which moves.
    pub fn into_text(self) -> Text
        ensures { result ≡ self }
    {
        self.text
    }

    pub fn as_bytes(&self) -> &[u8]
        ensures { result.now ≡ self.now }
    {
        self.text.as_bytes()
    }

    pub fn as_str(&self) -> &str
        ensures { result.now ≡ self.now }
    {
        self.text.as_str()
    }
}

impl Copied for BucketName {
    fn copy(&self) -> Result<BucketName, AllocError> {
        Ok(BucketName {
            text: self.text.copy()?,
        })
    }
}

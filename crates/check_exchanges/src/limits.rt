//! The limits of a row's connections.
ghost use Rattle.std.specs.Prelude.{IsTrue};
ghost use Rattle.gcs_http_in.specs.Usual.{IsAllowed};

use gcs_http_in::Limits;

/// A number of the limits.
#[derive(Clone, Copy, Debug, PartialEq, Eq)]
pub enum Limit {
    Head,
    Fields,
    Body,
    Json,
    Requests,
}

/// Limits that a connection may have: each number is at least 1 and at most the usual one.
#[derive(Clone, Copy, Debug)]
pub struct RowLimits {
    limits: Limits,
    ghost allowed: { IsAllowed limits },
}

impl RowLimits {
    pub fn usual() -> RowLimits {
        RowLimits {
            limits: Limits::usual(),
        }
    }

    pub fn get(&self) -> &Limits
        ensures { IsAllowed result.now }
    {
        &self.limits
    }

    /// The limits with one number changed. `None`: no connection may have them.
    pub fn with(&self, limit: Limit, number: u64) -> Option<RowLimits> {
        let limits = changed(self.limits, limit, number)?;
        if is_allowed(&limits) {
            Some(RowLimits { limits })
        } else {
            None
        }
    }
}

fn changed(limits: Limits, limit: Limit, number: u64) -> Option<Limits> {
    Some(match limit {
        Limit::Head => Limits {
            head: u32::try_from(number).ok()?,
            ..limits
        },
        Limit::Fields => Limits {
            fields: u32::try_from(number).ok()?,
            ..limits
        },
        Limit::Body => Limits {
            body: number,
            ..limits
        },
        Limit::Json => Limits {
            json: number,
            ..limits
        },
        Limit::Requests => Limits {
            requests: u32::try_from(number).ok()?,
            ..limits
        },
    })
}

fn is_allowed(limits: &Limits) -> bool
    ensures { IsTrue result → IsAllowed limits.now }
{
    let usual = Limits::usual();
    let head = 1 <= limits.head && limits.head <= usual.head;
    let fields = 1 <= limits.fields && limits.fields <= usual.fields;
    let body = 1 <= limits.body && limits.body <= usual.body;
    let json = 1 <= limits.json && limits.json <= usual.json;
    let requests = 1 <= limits.requests && limits.requests <= usual.requests;
    head && fields && body && json && requests
}

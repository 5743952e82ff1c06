//! The names in a path.
ghost use Rattle.std.specs.Prelude.{◌≡◌, ◌++◌, map, codes, IfOk, IfErr, OnOk};
ghost use Rattle.gcs_names.specs.Name.{IsBucketName, IsObjectName};
ghost use Rattle.percent_encoding.specs.Percent as percent;
ghost use Rattle.gcs_route.specs.Refusals.{name_test, name_tests, name_at, names_at, AlwaysPass, IsAlwaysFirstFault, IsNameFault};

use crate::fault::RouteFault;
use crate::values::invalid;
use gcs_meaning::{BucketName, Key, List, Name};
use gcs_names::{BadName, bucket_name, object_name, segment};
use std::alloc::Global;

fn bucket_of(alloc: Global, text: &[u8]) -> Result<BucketName, RouteFault>
    ensures value { IfOk result (λ name. name ≡ percent.percent_decode text.now) }
    ensures right { IfOk result (λ _. IsBucketName (percent.percent_decode text.now)) }
    ensures wrong { IfErr result (IsNameFault (IsBucketName (percent.percent_decode text.now)) Key.Bucket) }
{
    let bytes = segment(alloc, text)?;
    match bucket_name(alloc, bytes.as_slice()) {
        Ok(name) => Ok(name),
        Err(BadName::Form) => Err(invalid(Key::Bucket)),
        Err(BadName::NoMemory) => Err(RouteFault::NoMemory),
    }
}

fn object_of(alloc: Global, text: &[u8]) -> Result<Name, RouteFault>
    ensures value { IfOk result (λ name. name ≡ percent.percent_decode text.now) }
    ensures right { IfOk result (λ _. IsObjectName (percent.percent_decode text.now)) }
    ensures wrong { IfErr result (IsNameFault (IsObjectName (percent.percent_decode text.now)) Key.Object) }
{
    let bytes = segment(alloc, text)?;
    match object_name(alloc, bytes.as_slice()) {
        Ok(name) => Ok(name),
        Err(BadName::Form) => Err(invalid(Key::Object)),
        Err(BadName::NoMemory) => Err(RouteFault::NoMemory),
    }
}

// Tests the name that stands in a path for this piece of the row, and adds it.
fn read_name(
    alloc: Global,
    piece: &str,
    segment: &[u8],
    buckets: &mut List<BucketName>,
    objects: &mut List<Name>,
) -> Result<(), RouteFault>
    ensures buckets { OnOk result (buckets.new ≡ buckets.old ++ name_at (codes "{bucket}") piece.now segment.now) }
    ensures objects { OnOk result (objects.new ≡ objects.old ++ name_at (codes "{object}") piece.now segment.now) }
    ensures right { OnOk result (AlwaysPass (name_test piece.now segment.now)) }
    ensures wrong { IfErr result (IsAlwaysFirstFault (name_test piece.now segment.now)) }
{
    if piece == "{bucket}" {
        let name = bucket_of(alloc, segment)?;
        buckets.push(name)?;
        return Ok(());
    }
    if piece == "{object}" {
        let name = object_of(alloc, segment)?;
        objects.push(name)?;
    }
    Ok(())
}

/// Tests the names in the order of the path, and adds them.
pub(crate) fn read_names(
    alloc: Global,
    path: &[&str],
    segments: &[&[u8]],
    buckets: &mut List<BucketName>,
    objects: &mut List<Name>,
) -> Result<(), RouteFault>
    ensures buckets { OnOk result (buckets.new ≡ buckets.old ++ names_at (codes "{bucket}") (map (λ s. s.now) path.now) (map (λ s. s.now) segments.now)) }
    ensures objects { OnOk result (objects.new ≡ objects.old ++ names_at (codes "{object}") (map (λ s. s.now) path.now) (map (λ s. s.now) segments.now)) }
    ensures right { OnOk result (AlwaysPass (name_tests (map (λ s. s.now) path.now) (map (λ s. s.now) segments.now))) }
    ensures wrong { IfErr result (IsAlwaysFirstFault (name_tests (map (λ s. s.now) path.now) (map (λ s. s.now) segments.now))) }
{
    let Some((piece, pieces)) = path.split_first() else {
        return Ok(());
    };
    let Some((segment, others)) = segments.split_first() else {
        return Ok(());
    };
    read_name(alloc, piece, segment, buckets, objects)?;
    read_names(alloc, pieces, others, buckets, objects)
}

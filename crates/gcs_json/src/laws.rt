//! What the definitions of the bodies come to.
ghost use Rattle.gcs_json.specs.BucketLaws.{FirstFaultCounts, EachFieldCounts};
ghost use Rattle.gcs_json.specs.ObjectLaws.{FirstObjectFaultCounts, EachObjectFieldCounts};
ghost use Rattle.gcs_json.specs.ComposeLaws.{FirstComposeFaultCounts, EachComposeFieldCounts};

/// The fault of a bucket's body is that of the first known field, in byte order of the names, which has one.
pub fn law_first_fault()
    ensures { FirstFaultCounts }
{}

/// The same of an object's body.
pub fn law_first_object_fault()
    ensures { FirstObjectFaultCounts }
{}

/// The same of a compose's body.
pub fn law_first_compose_fault()
    ensures { FirstComposeFaultCounts }
{}

/// A bucket's body is read exactly as its fields are, each by itself.
pub fn law_fields()
    ensures { EachFieldCounts }
{}

/// The same of an object's body.
pub fn law_object_fields()
    ensures { EachObjectFieldCounts }
{}

/// The same of a compose's body.
pub fn law_compose_fields()
    ensures { EachComposeFieldCounts }
{}

//! Laws of the tables of fields.
ghost use Rattle.gcs_render.specs.Laws.{ObjectFieldsRise, BucketFieldsRise, SoftPolicyFieldsRise, RetentionFieldsRise, PageFieldsRise, BucketPageFieldsRise, RewriteFieldsRise, ErrorFieldsRise, DetailFieldsRise};

/// The fields of all that is shown stand in the byte order of their keys, and no key stands twice.
pub fn law_fields_rise()
    ensures object { ObjectFieldsRise }
    ensures bucket { BucketFieldsRise }
    ensures soft_policy { SoftPolicyFieldsRise }
    ensures retention { RetentionFieldsRise }
    ensures page { PageFieldsRise }
    ensures bucket_page { BucketPageFieldsRise }
    ensures rewrite { RewriteFieldsRise }
    ensures error { ErrorFieldsRise }
    ensures detail { DetailFieldsRise }
{}

// The parameters of a query (Amazon S3 API reference, ListObjectsV2 and ListObjects: URI request parameters).
ghost use Rattle.std.specs.Prelude.{◌≡◌};
ghost use Rattle.line_grammar.specs.Asking as kept;
ghost use Rattle.line_grammar.specs.NamedQueries as spec;

/// The version of a listing: a LISTV1 line asks one of version 1, a LIST line one of version 2.
#[derive(Clone, Copy, PartialEq, Eq)]
pub(crate) enum Version {
    V1,
    V2,
}

/// The name of a parameter.
#[derive(Clone, Copy, PartialEq, Eq)]
pub(crate) enum Name {
    ListType,
    Prefix,
    Delimiter,
    MaxKeys,
    StartAfter,
    ContinuationToken,
    EncodingType,
    FetchOwner,
    Marker,
}

impl Name {
    /// The parameter of this name. Names are read as they stand.
    pub(crate) fn written(text: &str) -> Option<Name>
        ensures { result ≡ spec.name_written text.now }
    {
        match text {
            "list-type" => Some(Name::ListType),
            "prefix" => Some(Name::Prefix),
            "delimiter" => Some(Name::Delimiter),
            "max-keys" => Some(Name::MaxKeys),
            "start-after" => Some(Name::StartAfter),
            "continuation-token" => Some(Name::ContinuationToken),
            "encoding-type" => Some(Name::EncodingType),
            "fetch-owner" => Some(Name::FetchOwner),
            "marker" => Some(Name::Marker),
            _ => None,
        }
    }

    /// Whether a query of this version takes the parameter.
    pub(crate) fn is_taken(self, version: Version) -> bool
        ensures { result ≡ spec.is_taken version self }
    {
        match self {
            Name::Prefix | Name::Delimiter | Name::MaxKeys | Name::EncodingType => true,
            Name::StartAfter | Name::ContinuationToken | Name::ListType | Name::FetchOwner => {
                matches!(version, Version::V2)
            }
            Name::Marker => matches!(version, Version::V1),
        }
    }

    /// Whether its value is compared with names, so that it has at most 1,024 bytes.
    pub(crate) fn is_compared(self, version: Version) -> bool
        ensures { result ≡ spec.is_compared version self }
    {
        match self {
            Name::Prefix | Name::Delimiter | Name::StartAfter => true,
            Name::Marker => matches!(version, Version::V1),
            _ => false,
        }
    }
}

fn place_of(name: Name) -> u8
    ensures { result ≡ spec.place_of_name name }
{
    name as u8
}

/// Whether the name is among these.
pub(crate) fn stands_in(names: &[Name], name: Name) -> bool
    ensures { result ≡ kept.stands_in names.now name }
{
    let place = place_of(name);
    names.iter().any(|other| place_of(*other) == place)
}

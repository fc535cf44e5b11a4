// The requests of a workload, as they are sent.
ghost use Rattle.std.specs.Prelude.{◌≡◌, ◌++◌, ◌≤◌, IfOk, OnOk, codes, drop, length, map, string_bytes};
ghost use Rattle.std.specs.Map.Iter.{deref_pair};
ghost use Rattle.sdb_base.specs.Pairs.{HasDistinctNames};
ghost use Rattle.sdb_sign.specs.Canon.{escaped};
ghost use Rattle.sdb_sign.specs.Signing.{signature_of};
ghost use Rattle.sdb_script.specs.Requests as requests;
ghost use Rattle.sdb_script.specs.Requests.{common, domain_params, entry_params, place_params, replace_params, select_params};

use crate::names::{attribute_name, domain_name, expression, item_name, value_text};
use crate::operation::{Entry, Operation, Place};
use base64::engine::general_purpose::STANDARD;
use percent_encoding::{AsciiSet, NON_ALPHANUMERIC, ascii_set, percent_encode};
use sdb_base::{Bytes, OutOfMemory, Params, Text};
use sdb_sign::{Verb, hmac, string_to_sign};
use std::alloc::Global;

const HOST: &[u8] = b"bench";

const SECRET: &[u8] = b"BENCHSECRET";

// The lines of the text to sign before the canonical query: the verb, the host and the path.
const LINES_BEFORE_QUERY: usize = 12;

// All ASCII bytes but the unreserved ones (RFC 3986, section 2.3).
const RESERVED: AsciiSet = ascii_set!(
    NON_ALPHANUMERIC
        .remove(b'-')
        .remove(b'.')
        .remove(b'_')
        .remove(b'~')
);

// The request that asks for an operation, signed (signature version 2).
pub(crate) fn request_of(alloc: Global, operation: Operation) -> Result<Bytes, OutOfMemory>
    ensures { IfOk result (λ made. made.bytes ≡ requests.request_of operation) }
{
    let params = params_of(alloc, operation)?;
    signed_request(alloc, &params)
}

#[tactic(auto, using(std::proofs::Common::append_assoc), unfolding(crate::specs::Requests::signed_request))]
fn signed_request(alloc: Global, params: &Params) -> Result<Bytes, OutOfMemory>
    ensures { IfOk result (λ made. made.bytes ≡ requests.signed_request params.now) }
{
    let text = string_to_sign(alloc, Verb::Get, HOST, params)?;
    let signature = signature_of(alloc, text.as_slice())?;
    let mut request = Bytes::new(alloc);
    request.append(b"GET /?")?;
    request.append(query_of(text.as_slice()))?;
    request.append(b"&Signature=")?;
    append_escaped(&mut request, signature.as_str())?;
    request.append(b" HTTP/1.1\r\nHost: bench\r\n\r\n")?;
    Ok(request)
}

#[tactic(auto, unfolding(sdb_sign::specs::Signing::signature_of))]
fn signature_of(alloc: Global, text: &[u8]) -> Result<String, OutOfMemory>
    ensures { IfOk result (λ made. string_bytes made ≡ signature_of (codes "BENCHSECRET") text.now) }
{
    Ok(STANDARD.encode(alloc, &hmac(SECRET, text))?)
}

// The canonical query in a text to sign.
fn query_of(text: &[u8]) -> &[u8]
    requires { 12 ≤ length text.now }
    ensures { result.now ≡ drop 12 text.now }
{
    let (_, query) = text.split_at(LINES_BEFORE_QUERY);
    query
}

fn append_escaped(text: &mut Bytes, plain: &str) -> Result<(), OutOfMemory>
    ensures { OnOk result (text.new.bytes ≡ text.old.bytes ++ escaped plain.now) }
{
    for piece in percent_encode(plain.as_bytes(), RESERVED) {
        text.append(piece.as_bytes())?;
    }
    Ok(())
}

// All parameters of a request without the signature.
#[tactic(auto, unfolding(crate::specs::Requests::params_of))]
fn params_of(alloc: Global, operation: Operation) -> Result<Params, OutOfMemory>
    ensures { IfOk result (λ made. made ≡ requests.params_of operation) }
{
    match operation {
        Operation::Create(domain) => create_params(alloc, domain),
        Operation::Put(place, entry, false) => put_params(alloc, place, entry),
        Operation::Put(place, entry, true) => replace_params(alloc, place, entry),
        Operation::Delete(place) => place_request(alloc, "DeleteAttributes", place),
        Operation::Get(place) => place_request(alloc, "GetAttributes", place),
        Operation::Select(domain, entry) => select_params(alloc, domain, entry),
    }
}

fn create_params(alloc: Global, domain: u64) -> Result<Params, OutOfMemory>
    ensures { IfOk result (λ made. made ≡ common (codes "CreateDomain") ++ domain_params domain) }
{
    let domain = domain_name(alloc, domain)?;
    params_with(alloc, "CreateDomain", &[("DomainName", domain.as_str())])
}

fn place_request(alloc: Global, action: &str, place: Place) -> Result<Params, OutOfMemory>
    ensures { IfOk result (λ made. made ≡ common action.now ++ place_params place) }
{
    let domain = domain_name(alloc, place.domain)?;
    let item = item_name(alloc, place.item)?;
    params_with(
        alloc,
        action,
        &[("DomainName", domain.as_str()), ("ItemName", item.as_str())],
    )
}

fn put_params(alloc: Global, place: Place, entry: Entry) -> Result<Params, OutOfMemory>
    ensures { IfOk result (λ made. made ≡ common (codes "PutAttributes") ++ (place_params place ++ entry_params entry)) }
{
    let domain = domain_name(alloc, place.domain)?;
    let item = item_name(alloc, place.item)?;
    let attribute = attribute_name(alloc, entry.attribute)?;
    let value = value_text(alloc, entry.value)?;
    params_with(
        alloc,
        "PutAttributes",
        &[
            ("DomainName", domain.as_str()),
            ("ItemName", item.as_str()),
            ("Attribute.1.Name", attribute.as_str()),
            ("Attribute.1.Value", value.as_str()),
        ],
    )
}

// The same of a put that replaces.
fn replace_params(alloc: Global, place: Place, entry: Entry) -> Result<Params, OutOfMemory>
    ensures { IfOk result (λ made. made ≡ common (codes "PutAttributes") ++ (place_params place ++ entry_params entry ++ replace_params)) }
{
    let domain = domain_name(alloc, place.domain)?;
    let item = item_name(alloc, place.item)?;
    let attribute = attribute_name(alloc, entry.attribute)?;
    let value = value_text(alloc, entry.value)?;
    params_with(
        alloc,
        "PutAttributes",
        &[
            ("DomainName", domain.as_str()),
            ("ItemName", item.as_str()),
            ("Attribute.1.Name", attribute.as_str()),
            ("Attribute.1.Value", value.as_str()),
            ("Attribute.1.Replace", "true"),
        ],
    )
}

fn select_params(alloc: Global, domain: u64, entry: Entry) -> Result<Params, OutOfMemory>
    ensures { IfOk result (λ made. made ≡ common (codes "Select") ++ select_params domain entry) }
{
    let expression = expression(alloc, domain, entry)?;
    params_with(
        alloc,
        "Select",
        &[("SelectExpression", expression.as_str())],
    )
}

// The parameters of each request, and then its own.
fn params_with(alloc: Global, action: &str, own: &[(&str, &str)]) -> Result<Params, OutOfMemory>
    requires { HasDistinctNames (common action.now ++ map deref_pair own.now) }
    ensures { IfOk result (λ made. made ≡ common action.now ++ map deref_pair own.now) }
{
    let mut params = common_params(alloc, action)?;
    append_params(alloc, &mut params, own)?;
    Ok(Params::of(params))
}

fn common_params(alloc: Global, action: &str) -> Result<Vec<(Text, Text)>, OutOfMemory>
    ensures { IfOk result (λ made. made.items ≡ common action.now) }
{
    let mut params = Vec::new(alloc);
    let always = [
        ("AWSAccessKeyId", "BENCHKEY"),
        ("Action", action),
        ("SignatureMethod", "HmacSHA256"),
        ("SignatureVersion", "2"),
        ("Timestamp", "2010-01-01T00:00:00Z"),
        ("Version", "2009-04-15"),
    ];
    append_params(alloc, &mut params, &always)?;
    Ok(params)
}

fn append_params(
    alloc: Global,
    params: &mut Vec<(Text, Text)>,
    more: &[(&str, &str)],
) -> Result<(), OutOfMemory>
    ensures { OnOk result (params.new.items ≡ params.old.items ++ map deref_pair more.now) }
{
    for (name, value) in more {
        let name = Text::from_str(alloc, name)?;
        let value = Text::from_str(alloc, value)?;
        params.push((name, value))?;
    }
    Ok(())
}

// The constant texts of bodies.
ghost use Rattle.std.specs.Prelude.{◌≡◌};
ghost use Rattle.sdb_http.specs.Responses as response;
ghost use Rattle.sdb_reply.specs.Bodies as bodies;
ghost use Rattle.sdb_reply.specs.Escape as escape;
ghost use Rattle.sdb_reply.specs.Results as results;

#[tactic(auto, unfolding(crate::specs::Bodies::head))]
pub(crate) fn head() -> &'static [u8]
    ensures { result.now ≡ bodies.head }
{
    b"<?xml version=\"1.0\"?>\n<"
}

#[tactic(auto, unfolding(crate::specs::Bodies::opened))]
pub(crate) fn opened() -> &'static [u8]
    ensures { result.now ≡ bodies.opened }
{
    b"Response xmlns=\"http://sdb.amazonaws.com/doc/2009-04-15/\">"
}

#[tactic(auto, unfolding(crate::specs::Bodies::before_id))]
pub(crate) fn before_id() -> &'static [u8]
    ensures { result.now ≡ bodies.before_id }
{
    b"<ResponseMetadata><RequestId>"
}

#[tactic(auto, unfolding(crate::specs::Bodies::before_usage))]
pub(crate) fn before_usage() -> &'static [u8]
    ensures { result.now ≡ bodies.before_usage }
{
    b"</RequestId><BoxUsage>"
}

#[tactic(auto, unfolding(crate::specs::Bodies::after_usage))]
pub(crate) fn after_usage() -> &'static [u8]
    ensures { result.now ≡ bodies.after_usage }
{
    b"</BoxUsage></ResponseMetadata></"
}

#[tactic(auto, unfolding(crate::specs::Bodies::closed))]
pub(crate) fn closed() -> &'static [u8]
    ensures { result.now ≡ bodies.closed }
{
    b"Response>"
}

#[tactic(auto, unfolding(crate::specs::Bodies::before_code))]
pub(crate) fn before_code() -> &'static [u8]
    ensures { result.now ≡ bodies.before_code }
{
    b"<?xml version=\"1.0\"?>\n<Response><Errors><Error><Code>"
}

#[tactic(auto, unfolding(crate::specs::Bodies::before_message))]
pub(crate) fn before_message() -> &'static [u8]
    ensures { result.now ≡ bodies.before_message }
{
    b"</Code><Message>"
}

#[tactic(auto, unfolding(crate::specs::Bodies::after_message))]
pub(crate) fn after_message() -> &'static [u8]
    ensures { result.now ≡ bodies.after_message }
{
    b"</Message><BoxUsage>"
}

#[tactic(auto, unfolding(crate::specs::Bodies::before_refused_id))]
pub(crate) fn before_refused_id() -> &'static [u8]
    ensures { result.now ≡ bodies.before_refused_id }
{
    b"</BoxUsage></Error></Errors><RequestID>"
}

#[tactic(auto, unfolding(crate::specs::Bodies::after_refused_id))]
pub(crate) fn after_refused_id() -> &'static [u8]
    ensures { result.now ≡ bodies.after_refused_id }
{
    b"</RequestID></Response>"
}

#[tactic(auto, unfolding(crate::specs::Bodies::between))]
pub(crate) fn between() -> &'static [u8]
    ensures { result.now ≡ bodies.between }
{
    b"-0000-0000-0000-"
}

#[tactic(auto, unfolding(crate::specs::Escape::ampersand))]
pub(crate) fn ampersand() -> &'static [u8]
    ensures { result.now ≡ escape.ampersand }
{
    b"&amp;"
}

#[tactic(auto, unfolding(crate::specs::Escape::less))]
pub(crate) fn less() -> &'static [u8]
    ensures { result.now ≡ escape.less }
{
    b"&lt;"
}

#[tactic(auto, unfolding(crate::specs::Escape::greater))]
pub(crate) fn greater() -> &'static [u8]
    ensures { result.now ≡ escape.greater }
{
    b"&gt;"
}

#[tactic(auto, unfolding(crate::specs::Escape::carriage_return))]
pub(crate) fn carriage_return() -> &'static [u8]
    ensures { result.now ≡ escape.carriage_return }
{
    b"&#13;"
}

#[tactic(auto, unfolding(crate::specs::Escape::encoding))]
pub(crate) fn encoding() -> &'static [u8]
    ensures { result.now ≡ escape.encoding }
{
    b" encoding=\"base64\">"
}

#[tactic(auto, unfolding(crate::specs::Results::item_count))]
pub(crate) fn item_count() -> &'static str
    ensures { result.now ≡ results.item_count }
{
    "ItemCount"
}

#[tactic(auto, unfolding(crate::specs::Results::item_names_size))]
pub(crate) fn item_names_size() -> &'static str
    ensures { result.now ≡ results.item_names_size }
{
    "ItemNamesSizeBytes"
}

#[tactic(auto, unfolding(crate::specs::Results::attribute_name_count))]
pub(crate) fn attribute_name_count() -> &'static str
    ensures { result.now ≡ results.attribute_name_count }
{
    "AttributeNameCount"
}

#[tactic(auto, unfolding(crate::specs::Results::attribute_names_size))]
pub(crate) fn attribute_names_size() -> &'static str
    ensures { result.now ≡ results.attribute_names_size }
{
    "AttributeNamesSizeBytes"
}

#[tactic(auto, unfolding(crate::specs::Results::attribute_value_count))]
pub(crate) fn attribute_value_count() -> &'static str
    ensures { result.now ≡ results.attribute_value_count }
{
    "AttributeValueCount"
}

#[tactic(auto, unfolding(crate::specs::Results::attribute_values_size))]
pub(crate) fn attribute_values_size() -> &'static str
    ensures { result.now ≡ results.attribute_values_size }
{
    "AttributeValuesSizeBytes"
}

#[tactic(auto, unfolding(crate::specs::Results::timestamp))]
pub(crate) fn timestamp() -> &'static str
    ensures { result.now ≡ results.timestamp }
{
    "Timestamp"
}

#[tactic(auto, unfolding(crate::specs::Results::counting_item))]
pub(crate) fn counting_item() -> &'static str
    ensures { result.now ≡ results.counting_item }
{
    "Domain"
}

#[tactic(auto, unfolding(crate::specs::Results::counting_attribute))]
pub(crate) fn counting_attribute() -> &'static str
    ensures { result.now ≡ results.counting_attribute }
{
    "Count"
}

#[tactic(auto, unfolding(sdb_http::specs::Responses::version_word))]
pub(crate) fn version_word() -> &'static [u8]
    ensures { result.now ≡ response.version_word }
{
    b"HTTP/1.1 "
}

#[tactic(auto, unfolding(sdb_http::specs::Responses::space_word))]
pub(crate) fn space_word() -> &'static [u8]
    ensures { result.now ≡ response.space_word }
{
    b" "
}

#[tactic(auto, unfolding(sdb_http::specs::Responses::type_lines))]
pub(crate) fn type_lines() -> &'static [u8]
    ensures { result.now ≡ response.type_lines }
{
    b"\r\nContent-Type: text/xml\r\nContent-Length: "
}

#[tactic(auto, unfolding(sdb_http::specs::Responses::close_line))]
pub(crate) fn close_line() -> &'static [u8]
    ensures { result.now ≡ response.close_line }
{
    b"\r\nConnection: close"
}

#[tactic(auto, unfolding(sdb_http::specs::Responses::head_end))]
pub(crate) fn head_end() -> &'static [u8]
    ensures { result.now ≡ response.head_end }
{
    b"\r\n\r\n"
}

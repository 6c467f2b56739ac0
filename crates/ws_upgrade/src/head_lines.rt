//! The lines of the heads that are written (RFC 6455 sections 4.1 and 4.2.2).

ghost use Rattle.std.specs.Prelude.{◌≡◌, ◌++◌, OnOk, map, codes};
ghost use Rattle.std.specs.List.{flat_map};
ghost use Rattle.ws_upgrade.specs.Texts.{line_end, request_line, header_line, lines_bytes, protocol_lines};
ghost use Rattle.ws_upgrade.specs.Texts.{chosen_names};
ghost use Rattle.ws_upgrade.specs.AddedHeaders.{header_pair};

use crate::added_headers::AddedHeader;
use crate::protocols::{PROTOCOL_HEADER, ProtocolName};
use std::alloc::AllocError;

/// Adds the first line of a request.
pub(crate) fn push_request_line(text: &mut Vec<u8>, path: &[u8]) -> Result<(), AllocError>
    ensures { OnOk result (text.new.items ≡ text.old.items ++ (request_line path.now ++ line_end)) }
{
    text.extend_from_slice(b"GET ")?;
    text.extend_from_slice(path)?;
    text.extend_from_slice(b" HTTP/1.1\r\n")?;
    Ok(())
}

/// Adds the line of a header.
pub(crate) fn push_header(text: &mut Vec<u8>, name: &[u8], value: &[u8]) -> Result<(), AllocError>
    ensures { OnOk result (text.new.items ≡ text.old.items ++ (header_line name.now value.now ++ line_end)) }
{
    text.extend_from_slice(name)?;
    text.extend_from_slice(b": ")?;
    text.extend_from_slice(value)?;
    text.extend_from_slice(b"\r\n")?;
    Ok(())
}

/// Adds the lines of headers.
pub(crate) fn push_headers(
    text: &mut Vec<u8>,
    headers: &[AddedHeader<'_>],
) -> Result<(), AllocError>
    ensures { OnOk result (text.new.items ≡ text.old.items
        ++ flat_map (λ header. header_line header.0 header.1 ++ line_end) (map header_pair headers.now)) }
{
    for header in headers {
        push_header(text, header.name, header.value)?;
    }
    Ok(())
}

/// Adds the line of the subprotocol that was chosen, if any.
pub(crate) fn push_chosen(
    text: &mut Vec<u8>,
    protocol: Option<ProtocolName<'_>>,
) -> Result<(), AllocError>
    ensures { OnOk result (text.new.items ≡ text.old.items
        ++ lines_bytes (protocol_lines (chosen_names protocol.entry))) }
{
    match protocol {
        Some(name) => push_protocols(text, &[name.as_bytes()]),
        None => push_protocols(text, &[]),
    }
}

/// Adds the line that names subprotocols, where there are any.
pub(crate) fn push_protocols(text: &mut Vec<u8>, names: &[&[u8]]) -> Result<(), AllocError>
    ensures { OnOk result (text.new.items ≡ text.old.items
        ++ lines_bytes (protocol_lines (map (λ name. name.now) names.now))) }
{
    let Some((first, others)) = names.split_first() else {
        return Ok(());
    };
    text.extend_from_slice(PROTOCOL_HEADER)?;
    text.extend_from_slice(b": ")?;
    text.extend_from_slice(first)?;
    push_others(text, others)?;
    text.extend_from_slice(b"\r\n")?;
    Ok(())
}

/// Adds names, each with a comma before it.
fn push_others(text: &mut Vec<u8>, names: &[&[u8]]) -> Result<(), AllocError>
    ensures { OnOk result (text.new.items ≡ text.old.items
        ++ flat_map (λ name. codes ", " ++ name) (map (λ name. name.now) names.now)) }
{
    for name in names {
        text.extend_from_slice(b", ")?;
        text.extend_from_slice(name)?;
    }
    Ok(())
}

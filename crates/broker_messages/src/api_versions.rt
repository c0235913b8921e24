//! ApiVersions (key 18, versions 0 to 3): which APIs and versions the broker speaks. A client's first request.

use crate::api::BrokerApi;
use crate::fault::MessageFault;
use crate::fields::Fields;
use crate::output::{Output, PutFields};
use std::alloc::Global;

/// An ApiVersions request. Before version 3 it says nothing.
#[derive(Clone, Copy, Debug)]
pub struct ApiVersionsRequest<'a> {
    /// From version 3 on; else empty.
    pub client_software_name: &'a str,
    /// From version 3 on; else empty.
    pub client_software_version: &'a str,
}

/// The answer: an error code, and all APIs of [`BrokerApi`] with their versions. That to an unknown version is written in version 0,
/// with the error UNSUPPORTED_VERSION (35).
#[derive(Clone, Copy)]
pub struct ApiVersionsReply {
    pub error_code: i16,
    /// From version 1 on.
    pub throttle_time_ms: i32,
}

impl<'a> ApiVersionsRequest<'a> {
    /// Reads what comes after the head. Faults: a field's. Takes no memory.
    pub fn read(
        _alloc: Global,
        version: i16,
        bytes: &'a [u8],
    ) -> Result<ApiVersionsRequest<'a>, MessageFault> {
        let mut fields = Fields::of(BrokerApi::ApiVersions, version, bytes);
        if !fields.since(3) {
            return Ok(ApiVersionsRequest {
                client_software_name: "",
                client_software_version: "",
            });
        }
        let client_software_name = fields.string()?;
        let client_software_version = fields.string()?;
        fields.tags()?;
        Ok(ApiVersionsRequest {
            client_software_name,
            client_software_version,
        })
    }
}

impl PutFields for ApiVersionsReply {
    fn put_fields(&self, output: &mut Output) -> Result<(), MessageFault> {
        output.int16(self.error_code)?;
        output.array(&BrokerApi::ALL)?;
        output.int32_since(1, self.throttle_time_ms)?;
        output.tags()
    }
}

impl PutFields for BrokerApi {
    fn put_fields(&self, output: &mut Output) -> Result<(), MessageFault> {
        output.int16(self.key())?;
        output.int16(self.lowest())?;
        output.int16(self.highest())?;
        output.tags()
    }
}

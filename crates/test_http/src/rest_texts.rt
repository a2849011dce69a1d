//! Requests and replies of get-bootstrapping-data, as they are written.

/// The request for the device A1, of the server 10.0.0.2:8443.
pub(crate) const REQUEST: &[u8] =
    b"POST /restconf/operations/ietf-sztp-bootstrap-server:get-bootstrapping-data HTTP/1.1\r\n\
    Host: 10.0.0.2:8443\r\nSztp-Serial-Number: A1\r\nContent-Type: application/yang-data+json\r\n\
    Accept: application/yang-data+json\r\nConnection: close\r\nContent-Length: 69\r\n\r\n\
    {\"ietf-sztp-bootstrap-server:input\":{\"signed-data-preferred\":[null]}}";

/// The same with a nonce.
pub(crate) const WITH_NONCE: &[u8] =
    b"POST /restconf/operations/ietf-sztp-bootstrap-server:get-bootstrapping-data HTTP/1.1\r\n\
    Host: 10.0.0.2:8443\r\nSztp-Serial-Number: A1\r\nContent-Type: application/yang-data+json\r\n\
    Accept: application/yang-data+json\r\nConnection: close\r\nContent-Length: 104\r\n\r\n\
    {\"ietf-sztp-bootstrap-server:input\":\
    {\"nonce\":\"AAECAwQFBgcICQoLDA0ODw==\",\"signed-data-preferred\":[null]}}";

/// That nonce.
pub(crate) const NONCE: [u8; 16] = [0, 1, 2, 3, 4, 5, 6, 7, 8, 9, 10, 11, 12, 13, 14, 15];

/// The reply with the conveyed information `abc` alone.
pub(crate) const ABC: &[u8] =
    b"HTTP/1.1 200 OK\r\nContent-Type: application/yang-data+json\r\nContent-Length: 69\r\n\r\n\
    {\"ietf-sztp-bootstrap-server:output\":{\"conveyed-information\":\"YWJj\"}}";

/// The reply with all three artifacts.
pub(crate) const ALL_THREE: &[u8] =
    b"HTTP/1.1 200 OK\r\nContent-Type: application/yang-data+json\r\nContent-Length: 119\r\n\r\n\
    {\"ietf-sztp-bootstrap-server:output\":{\"conveyed-information\":\"YWJj\",\
    \"owner-certificate\":\"/w==\",\"ownership-voucher\":\"\"}}";

//! Conveyed information as texts: the examples of RFC 8572 section 3 as far as this profile takes them, with bytes in
//! base64 and a hash on one line, and what is written of each text.

/// Redirect information.
pub(crate) const REDIRECT: &[u8] = br#"{
  "ietf-sztp-conveyed-info:redirect-information" : {
    "bootstrap-server" : [
      {"address" : "sztp1.example.com", "port" : 8443, "trust-anchor" : "base64encodedvalue=="},
      {"address" : "2001:db8::1"}
    ]
  }
}"#;

/// What is written of `REDIRECT`, and reads as it.
pub(crate) const WRITTEN_REDIRECT: &[u8] = b"{\"ietf-sztp-conveyed-info:redirect-information\":{\
    \"bootstrap-server\":[{\"address\":\"sztp1.example.com\",\"port\":8443},\
    {\"address\":\"[2001:db8::1]\",\"port\":443}]}}";

/// Onboarding information with all its members.
pub(crate) const ONBOARDING: &[u8] = b"{
  \"ietf-sztp-conveyed-info:onboarding-information\" : {
    \"boot-image\" : {
      \"os-name\" : \"VendorOS\",
      \"os-version\" : \"17.2R1.6\",
      \"download-uri\" : [ \"https://example.com/path/to/image/file\" ],
      \"image-verification\" : [
        {\"hash-algorithm\" : \"sha-512\", \"hash-value\" : 1},
        {
          \"hash-algorithm\" : \"ietf-sztp-conveyed-info:sha-256\",
          \"hash-value\" : \"\
          ba:ec:cf:a5:67:82:b4:10:77:c6:67:a6:22:ab:7d:50:04:a7:8b:8f:0e:db:02:8b:f4:75:55:fb:c1:13:b2:33\"
        },
        {}
      ]
    },
    \"configuration-handling\" : \"merge\",
    \"pre-configuration-script\" : \"Zm9v\",
    \"configuration\" : \"Zm9vYg==\",
    \"post-configuration-script\" : \"\"
  }
}";

/// The hash of its image.
pub(crate) const HASH: [u8; 32] = [
    0xba, 0xec, 0xcf, 0xa5, 0x67, 0x82, 0xb4, 0x10, 0x77, 0xc6, 0x67, 0xa6, 0x22, 0xab, 0x7d, 0x50,
    0x04, 0xa7, 0x8b, 0x8f, 0x0e, 0xdb, 0x02, 0x8b, 0xf4, 0x75, 0x55, 0xfb, 0xc1, 0x13, 0xb2, 0x33,
];

/// What is written of `ONBOARDING`, and reads as it.
pub(crate) const WRITTEN: &[u8] = b"{\"ietf-sztp-conveyed-info:onboarding-information\":{\
    \"boot-image\":{\"download-uri\":[\"https://example.com/path/to/image/file\"],\
    \"image-verification\":[{\"hash-algorithm\":\"ietf-sztp-conveyed-info:sha-256\",\
    \"hash-value\":\"ba:ec:cf:a5:67:82:b4:10:77:c6:67:a6:22:ab:7d:50:04:a7:8b:8f:0e:db:02:8b:f4:75:55:fb:c1:13:b2:33\"\
    }],\"os-name\":\"VendorOS\",\"os-version\":\"17.2R1.6\"},\"configuration\":\"Zm9vYg==\",\
    \"configuration-handling\":\"merge\",\"post-configuration-script\":\"\",\"pre-configuration-script\":\"Zm9v\"}}";

/// Onboarding information without a member.
pub(crate) const BARE: &[u8] = br#"{"ietf-sztp-conveyed-info:onboarding-information":{}}"#;

/// What is written of `BARE`.
pub(crate) const BARE_WRITTEN: &[u8] =
    br#"{"ietf-sztp-conveyed-info:onboarding-information":{"configuration-handling":"replace"}}"#;

/// A boot image with an empty list of URIs.
pub(crate) const NO_URIS: &[u8] =
    br#"{"ietf-sztp-conveyed-info:onboarding-information":{"boot-image":{"download-uri":[]}}}"#;

/// What is written of `NO_URIS`.
pub(crate) const EMPTY_IMAGE: &[u8] =
    br#"{"ietf-sztp-conveyed-info:onboarding-information":{"boot-image":{},"configuration-handling":"replace"}}"#;

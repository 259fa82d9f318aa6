// Names under 2, jointly assigned: X.500, NIST, DigiCert, TCG, ICAO, the CA/Browser Forum, countries.
pub const JOINT: &str = "\
2.16.756.1.89.1.2.1.1 swissSignGoldPolicy SwissSign
2.16.840.1.101.3.4.1.1 aes128-ECB NIST CSOR
2.16.840.1.101.3.4.1.2 aes128-CBC NIST CSOR
2.16.840.1.101.3.4.1.21 aes192-ECB NIST CSOR
2.16.840.1.101.3.4.1.22 aes192-CBC NIST CSOR
2.16.840.1.101.3.4.1.23 aes192-OFB NIST CSOR
2.16.840.1.101.3.4.1.24 aes192-CFB NIST CSOR
2.16.840.1.101.3.4.1.25 aes192-wrap NIST CSOR
2.16.840.1.101.3.4.1.26 aes192-GCM NIST CSOR
2.16.840.1.101.3.4.1.27 aes192-CCM NIST CSOR
2.16.840.1.101.3.4.1.28 aes192-wrap-pad NIST CSOR
2.16.840.1.101.3.4.1.3 aes128-OFB NIST CSOR
2.16.840.1.101.3.4.1.4 aes128-CFB NIST CSOR
2.16.840.1.101.3.4.1.41 aes256-ECB NIST CSOR
2.16.840.1.101.3.4.1.42 aes256-CBC NIST CSOR
2.16.840.1.101.3.4.1.43 aes256-OFB NIST CSOR
2.16.840.1.101.3.4.1.44 aes256-CFB NIST CSOR
2.16.840.1.101.3.4.1.45 aes256-wrap NIST CSOR
2.16.840.1.101.3.4.1.46 aes256-GCM NIST CSOR
2.16.840.1.101.3.4.1.47 aes256-CCM NIST CSOR
2.16.840.1.101.3.4.1.48 aes256-wrap-pad NIST CSOR
2.16.840.1.101.3.4.1.5 aes128-wrap NIST CSOR
2.16.840.1.101.3.4.1.6 aes128-GCM NIST CSOR
2.16.840.1.101.3.4.1.7 aes128-CCM NIST CSOR
2.16.840.1.101.3.4.1.8 aes128-wrap-pad NIST CSOR
2.16.840.1.101.3.4.2.1 sha256 NIST CSOR
2.16.840.1.101.3.4.2.10 sha3-512 NIST CSOR
2.16.840.1.101.3.4.2.11 shake128 NIST CSOR
2.16.840.1.101.3.4.2.12 shake256 NIST CSOR
2.16.840.1.101.3.4.2.13 hmacWithSHA3-224 NIST CSOR
2.16.840.1.101.3.4.2.14 hmacWithSHA3-256 NIST CSOR
2.16.840.1.101.3.4.2.15 hmacWithSHA3-384 NIST CSOR
2.16.840.1.101.3.4.2.16 hmacWithSHA3-512 NIST CSOR
2.16.840.1.101.3.4.2.17 shake128-len NIST CSOR
2.16.840.1.101.3.4.2.18 shake256-len NIST CSOR
2.16.840.1.101.3.4.2.19 kmac128 NIST CSOR
2.16.840.1.101.3.4.2.2 sha384 NIST CSOR
2.16.840.1.101.3.4.2.20 kmac256 NIST CSOR
2.16.840.1.101.3.4.2.3 sha512 NIST CSOR
2.16.840.1.101.3.4.2.4 sha224 NIST CSOR
2.16.840.1.101.3.4.2.5 sha512-224 NIST CSOR
2.16.840.1.101.3.4.2.6 sha512-256 NIST CSOR
2.16.840.1.101.3.4.2.7 sha3-224 NIST CSOR
2.16.840.1.101.3.4.2.8 sha3-256 NIST CSOR
2.16.840.1.101.3.4.2.9 sha3-384 NIST CSOR
2.16.840.1.101.3.4.3.1 dsa-with-sha224 NIST CSOR
2.16.840.1.101.3.4.3.10 ecdsa-with-sha3-256 NIST CSOR
2.16.840.1.101.3.4.3.11 ecdsa-with-sha3-384 NIST CSOR
2.16.840.1.101.3.4.3.12 ecdsa-with-sha3-512 NIST CSOR
2.16.840.1.101.3.4.3.13 rsassa-pkcs1-v1-5-with-sha3-224 NIST CSOR
2.16.840.1.101.3.4.3.14 rsassa-pkcs1-v1-5-with-sha3-256 NIST CSOR
2.16.840.1.101.3.4.3.15 rsassa-pkcs1-v1-5-with-sha3-384 NIST CSOR
2.16.840.1.101.3.4.3.16 rsassa-pkcs1-v1-5-with-sha3-512 NIST CSOR
2.16.840.1.101.3.4.3.17 ml-dsa-44 NIST CSOR
2.16.840.1.101.3.4.3.18 ml-dsa-65 NIST CSOR
2.16.840.1.101.3.4.3.19 ml-dsa-87 NIST CSOR
2.16.840.1.101.3.4.3.2 dsa-with-sha256 NIST CSOR
2.16.840.1.101.3.4.3.20 slh-dsa-sha2-128s NIST CSOR
2.16.840.1.101.3.4.3.21 slh-dsa-sha2-128f NIST CSOR
2.16.840.1.101.3.4.3.22 slh-dsa-sha2-192s NIST CSOR
2.16.840.1.101.3.4.3.23 slh-dsa-sha2-192f NIST CSOR
2.16.840.1.101.3.4.3.24 slh-dsa-sha2-256s NIST CSOR
2.16.840.1.101.3.4.3.25 slh-dsa-sha2-256f NIST CSOR
2.16.840.1.101.3.4.3.26 slh-dsa-shake-128s NIST CSOR
2.16.840.1.101.3.4.3.27 slh-dsa-shake-128f NIST CSOR
2.16.840.1.101.3.4.3.28 slh-dsa-shake-192s NIST CSOR
2.16.840.1.101.3.4.3.29 slh-dsa-shake-192f NIST CSOR
2.16.840.1.101.3.4.3.3 dsa-with-sha384 NIST CSOR
2.16.840.1.101.3.4.3.30 slh-dsa-shake-256s NIST CSOR
2.16.840.1.101.3.4.3.31 slh-dsa-shake-256f NIST CSOR
2.16.840.1.101.3.4.3.32 hash-ml-dsa-44-with-sha512 NIST CSOR
2.16.840.1.101.3.4.3.33 hash-ml-dsa-65-with-sha512 NIST CSOR
2.16.840.1.101.3.4.3.34 hash-ml-dsa-87-with-sha512 NIST CSOR
2.16.840.1.101.3.4.3.35 hash-slh-dsa-sha2-128s-with-sha256 NIST CSOR
2.16.840.1.101.3.4.3.36 hash-slh-dsa-sha2-128f-with-sha256 NIST CSOR
2.16.840.1.101.3.4.3.37 hash-slh-dsa-sha2-192s-with-sha512 NIST CSOR
2.16.840.1.101.3.4.3.38 hash-slh-dsa-sha2-192f-with-sha512 NIST CSOR
2.16.840.1.101.3.4.3.39 hash-slh-dsa-sha2-256s-with-sha512 NIST CSOR
2.16.840.1.101.3.4.3.4 dsa-with-sha512 NIST CSOR
2.16.840.1.101.3.4.3.40 hash-slh-dsa-sha2-256f-with-sha512 NIST CSOR
2.16.840.1.101.3.4.3.41 hash-slh-dsa-shake-128s-with-shake128 NIST CSOR
2.16.840.1.101.3.4.3.42 hash-slh-dsa-shake-128f-with-shake128 NIST CSOR
2.16.840.1.101.3.4.3.43 hash-slh-dsa-shake-192s-with-shake256 NIST CSOR
2.16.840.1.101.3.4.3.44 hash-slh-dsa-shake-192f-with-shake256 NIST CSOR
2.16.840.1.101.3.4.3.45 hash-slh-dsa-shake-256s-with-shake256 NIST CSOR
2.16.840.1.101.3.4.3.46 hash-slh-dsa-shake-256f-with-shake256 NIST CSOR
2.16.840.1.101.3.4.3.5 id-dsa-with-sha3-224 NIST CSOR
2.16.840.1.101.3.4.3.6 id-dsa-with-sha3-256 NIST CSOR
2.16.840.1.101.3.4.3.7 id-dsa-with-sha3-384 NIST CSOR
2.16.840.1.101.3.4.3.8 id-dsa-with-sha3-512 NIST CSOR
2.16.840.1.101.3.4.3.9 ecdsa-with-sha3-224 NIST CSOR
2.16.840.1.101.3.4.4.1 ml-kem-512 NIST CSOR
2.16.840.1.101.3.4.4.2 ml-kem-768 NIST CSOR
2.16.840.1.101.3.4.4.3 ml-kem-1024 NIST CSOR
2.16.840.1.113730.1 nsCertExt Netscape
2.16.840.1.113730.1.1 netscapeCertType Netscape
2.16.840.1.113730.1.12 nsSslServerName Netscape
2.16.840.1.113730.1.13 netscapeComment Netscape
2.16.840.1.113730.1.2 nsBaseUrl Netscape
2.16.840.1.113730.1.3 nsRevocationUrl Netscape
2.16.840.1.113730.1.4 nsCaRevocationUrl Netscape
2.16.840.1.113730.1.7 nsRenewalUrl Netscape
2.16.840.1.113730.1.8 nsCaPolicyUrl Netscape
2.16.840.1.113730.2 nsDataType Netscape
2.16.840.1.113730.2.5 nsCertSequence Netscape
2.16.840.1.113730.3.1.1 carLicense RFC 2798
2.16.840.1.113730.3.1.2 departmentNumber RFC 2798
2.16.840.1.113730.3.1.216 userPKCS12 RFC 2798
2.16.840.1.113730.3.1.241 displayName RFC 2798
2.16.840.1.113730.3.1.3 employeeNumber RFC 2798
2.16.840.1.113730.3.1.34 ref RFC 3296
2.16.840.1.113730.3.1.39 preferredLanguage RFC 2798
2.16.840.1.113730.3.1.4 employeeType RFC 2798
2.16.840.1.113730.3.1.40 userSMIMECertificate RFC 2798
2.16.840.1.113730.3.2.2 inetOrgPerson RFC 2798
2.16.840.1.113730.3.4.18 proxiedAuthorization RFC 4370
2.16.840.1.113730.3.4.2 manageDsaIT RFC 3296
2.16.840.1.113730.4.1 netscapeServerGatedCrypto Netscape
2.16.840.1.114412.1.1 digiCertOV DigiCert
2.16.840.1.114412.1.2 digiCertDV DigiCert
2.16.840.1.114412.2.1 digiCertEV DigiCert
2.16.840.1.114412.3.1 digiCertCodeSigning DigiCert
2.16.840.1.114412.3.2 digiCertEVCodeSigning DigiCert
2.16.840.1.114412.7.1 digiCertTimeStamping DigiCert
2.23.133.2.1 tcg-at-tpmManufacturer TCG
2.23.133.2.10 tcg-at-securityQualities TCG
2.23.133.2.15 tcg-at-tpmIdLabel TCG
2.23.133.2.16 tcg-at-tpmSpecification TCG
2.23.133.2.18 tcg-at-tpmSecurityAssertions TCG
2.23.133.2.2 tcg-at-tpmModel TCG
2.23.133.2.3 tcg-at-tpmVersion TCG
2.23.133.2.4 tcg-at-platformManufacturer TCG
2.23.133.2.5 tcg-at-platformModel TCG
2.23.133.2.6 tcg-at-platformVersion TCG
2.23.133.3.1 tcg-prt-tpmIdProtocol TCG
2.23.133.5.4.1 tcg-dice-TcbInfo TCG
2.23.133.8.1 tcg-kp-EKCertificate TCG
2.23.133.8.2 tcg-kp-PlatformAttributeCertificate TCG
2.23.133.8.3 tcg-kp-AIKCertificate TCG
2.23.136.1.1.1 ldsSecurityObject ICAO Doc 9303
2.23.136.1.1.2 cscaMasterList ICAO Doc 9303
2.23.136.1.1.3 cscaMasterListSigningKey ICAO Doc 9303
2.23.136.1.1.5 aaProtocolObject ICAO Doc 9303
2.23.136.1.1.6.1 nameChange ICAO Doc 9303
2.23.136.1.1.6.2 documentTypeList ICAO Doc 9303
2.23.136.1.1.7 deviationList ICAO Doc 9303
2.23.136.1.1.8 deviationListSigningKey ICAO Doc 9303
2.23.140.1.1 extended-validation CA/Browser Forum
2.23.140.1.2.1 domain-validated CA/Browser Forum
2.23.140.1.2.2 organization-validated CA/Browser Forum
2.23.140.1.2.3 individual-validated CA/Browser Forum
2.23.140.1.3 extended-validation-codesigning CA/Browser Forum
2.23.140.1.4.1 code-signing-requirements CA/Browser Forum
2.23.140.1.4.2 timestamping CA/Browser Forum
2.23.140.1.5.1.1 mailbox-validated-legacy CA/Browser Forum
2.23.140.1.5.1.2 mailbox-validated-multipurpose CA/Browser Forum
2.23.140.1.5.1.3 mailbox-validated-strict CA/Browser Forum
2.23.140.1.5.2.1 organization-validated-legacy CA/Browser Forum
2.23.140.1.5.2.2 organization-validated-multipurpose CA/Browser Forum
2.23.140.1.5.2.3 organization-validated-strict CA/Browser Forum
2.23.140.1.5.3.1 sponsor-validated-legacy CA/Browser Forum
2.23.140.1.5.3.2 sponsor-validated-multipurpose CA/Browser Forum
2.23.140.1.5.3.3 sponsor-validated-strict CA/Browser Forum
2.23.140.1.5.4.1 individual-validated-legacy CA/Browser Forum
2.23.140.1.5.4.2 individual-validated-multipurpose CA/Browser Forum
2.23.140.1.5.4.3 individual-validated-strict CA/Browser Forum
2.23.140.3.1 cabfOrganizationIdentifier CA/Browser Forum
2.23.43.1 wap-wsg WAP
2.23.43.1.4.1 wap-wsg-idm-ecid-wtls1 WAP
2.23.43.1.4.10 wap-wsg-idm-ecid-wtls10 WAP
2.23.43.1.4.11 wap-wsg-idm-ecid-wtls11 WAP
2.23.43.1.4.12 wap-wsg-idm-ecid-wtls12 WAP
2.23.43.1.4.3 wap-wsg-idm-ecid-wtls3 WAP
2.23.43.1.4.4 wap-wsg-idm-ecid-wtls4 WAP
2.23.43.1.4.5 wap-wsg-idm-ecid-wtls5 WAP
2.23.43.1.4.6 wap-wsg-idm-ecid-wtls6 WAP
2.23.43.1.4.7 wap-wsg-idm-ecid-wtls7 WAP
2.23.43.1.4.8 wap-wsg-idm-ecid-wtls8 WAP
2.23.43.1.4.9 wap-wsg-idm-ecid-wtls9 WAP
2.5.1.5.55 clearance X.501
2.5.13.0 objectIdentifierMatch RFC 4517
2.5.13.1 distinguishedNameMatch RFC 4517
2.5.13.10 numericStringSubstringsMatch RFC 4517
2.5.13.11 caseIgnoreListMatch RFC 4517
2.5.13.12 caseIgnoreListSubstringsMatch RFC 4517
2.5.13.13 booleanMatch RFC 4517
2.5.13.14 integerMatch RFC 4517
2.5.13.15 integerOrderingMatch RFC 4517
2.5.13.16 bitStringMatch RFC 4517
2.5.13.17 octetStringMatch RFC 4517
2.5.13.18 octetStringOrderingMatch RFC 4517
2.5.13.2 caseIgnoreMatch RFC 4517
2.5.13.20 telephoneNumberMatch RFC 4517
2.5.13.21 telephoneNumberSubstringsMatch RFC 4517
2.5.13.23 uniqueMemberMatch RFC 4517
2.5.13.27 generalizedTimeMatch RFC 4517
2.5.13.28 generalizedTimeOrderingMatch RFC 4517
2.5.13.29 integerFirstComponentMatch RFC 4517
2.5.13.3 caseIgnoreOrderingMatch RFC 4517
2.5.13.30 objectIdentifierFirstComponentMatch RFC 4517
2.5.13.31 directoryStringFirstComponentMatch RFC 4517
2.5.13.32 wordMatch RFC 4517
2.5.13.33 keywordMatch RFC 4517
2.5.13.34 certificateExactMatch RFC 4523
2.5.13.35 certificateMatch RFC 4523
2.5.13.36 certificatePairExactMatch RFC 4523
2.5.13.37 certificatePairMatch RFC 4523
2.5.13.38 certificateListExactMatch RFC 4523
2.5.13.39 certificateListMatch RFC 4523
2.5.13.4 caseIgnoreSubstringsMatch RFC 4517
2.5.13.40 algorithmIdentifierMatch RFC 4523
2.5.13.5 caseExactMatch RFC 4517
2.5.13.6 caseExactOrderingMatch RFC 4517
2.5.13.7 caseExactSubstringsMatch RFC 4517
2.5.13.8 numericStringMatch RFC 4517
2.5.13.9 numericStringOrderingMatch RFC 4517
2.5.18.1 createTimestamp RFC 4512
2.5.18.10 subschemaSubentry RFC 4512
2.5.18.2 modifyTimestamp RFC 4512
2.5.18.3 creatorsName RFC 4512
2.5.18.4 modifiersName RFC 4512
2.5.21.1 dITStructureRules RFC 4512
2.5.21.10 governingStructureRule RFC 4512
2.5.21.2 dITContentRules RFC 4512
2.5.21.4 matchingRules RFC 4512
2.5.21.5 attributeTypes RFC 4512
2.5.21.6 objectClasses RFC 4512
2.5.21.7 nameForms RFC 4512
2.5.21.8 matchingRuleUse RFC 4512
2.5.21.9 structuralObjectClass RFC 4512
2.5.29.14 subjectKeyIdentifier X.509
2.5.29.15 keyUsage X.509
2.5.29.16 privateKeyUsagePeriod X.509
2.5.29.17 subjectAltName X.509
2.5.29.18 issuerAltName X.509
2.5.29.19 basicConstraints X.509
2.5.29.20 cRLNumber X.509
2.5.29.21 reasonCode X.509
2.5.29.23 holdInstructionCode X.509
2.5.29.24 invalidityDate X.509
2.5.29.27 deltaCRLIndicator X.509
2.5.29.28 issuingDistributionPoint X.509
2.5.29.29 certificateIssuer X.509
2.5.29.30 nameConstraints X.509
2.5.29.31 cRLDistributionPoints X.509
2.5.29.32 certificatePolicies X.509
2.5.29.32.0 anyPolicy X.509
2.5.29.33 policyMappings X.509
2.5.29.35 authorityKeyIdentifier X.509
2.5.29.36 policyConstraints X.509
2.5.29.37 extKeyUsage X.509
2.5.29.37.0 anyExtendedKeyUsage X.509
2.5.29.46 freshestCRL X.509
2.5.29.54 inhibitAnyPolicy X.509
2.5.29.55 targetInformation X.509
2.5.29.56 noRevAvail X.509
2.5.29.9 subjectDirectoryAttributes X.509
2.5.4.0 objectClass X.520
2.5.4.1 aliasedEntryName X.520
2.5.4.10 organizationName X.520
2.5.4.100 dnsName X.520
2.5.4.11 organizationalUnitName X.520
2.5.4.12 title X.520
2.5.4.13 description X.520
2.5.4.14 searchGuide X.520
2.5.4.15 businessCategory X.520
2.5.4.16 postalAddress X.520
2.5.4.17 postalCode X.520
2.5.4.18 postOfficeBox X.520
2.5.4.19 physicalDeliveryOfficeName X.520
2.5.4.2 knowledgeInformation X.520
2.5.4.20 telephoneNumber X.520
2.5.4.21 telexNumber X.520
2.5.4.22 teletexTerminalIdentifier X.520
2.5.4.23 facsimileTelephoneNumber X.520
2.5.4.24 x121Address X.520
2.5.4.25 internationalISDNNumber X.520
2.5.4.26 registeredAddress X.520
2.5.4.27 destinationIndicator X.520
2.5.4.28 preferredDeliveryMethod X.520
2.5.4.29 presentationAddress X.520
2.5.4.3 commonName X.520
2.5.4.30 supportedApplicationContext X.520
2.5.4.31 member X.520
2.5.4.32 owner X.520
2.5.4.33 roleOccupant X.520
2.5.4.34 seeAlso X.520
2.5.4.35 userPassword X.520
2.5.4.36 userCertificate X.520
2.5.4.37 cACertificate X.520
2.5.4.38 authorityRevocationList X.520
2.5.4.39 certificateRevocationList X.520
2.5.4.4 surname X.520
2.5.4.40 crossCertificatePair X.520
2.5.4.41 name X.520
2.5.4.42 givenName X.520
2.5.4.43 initials X.520
2.5.4.44 generationQualifier X.520
2.5.4.45 uniqueIdentifier X.520
2.5.4.46 dnQualifier X.520
2.5.4.47 enhancedSearchGuide X.520
2.5.4.48 protocolInformation X.520
2.5.4.49 distinguishedName X.520
2.5.4.5 serialNumber X.520
2.5.4.50 uniqueMember X.520
2.5.4.51 houseIdentifier X.520
2.5.4.52 supportedAlgorithms X.520
2.5.4.53 deltaRevocationList X.520
2.5.4.54 dmdName X.520
2.5.4.6 countryName X.520
2.5.4.65 pseudonym X.520
2.5.4.7 localityName X.520
2.5.4.72 role X.520
2.5.4.8 stateOrProvinceName X.520
2.5.4.9 streetAddress X.520
2.5.4.97 organizationIdentifier X.520
2.5.4.98 countryCode3c X.520
2.5.4.99 countryCode3n X.520
2.5.6.0 top RFC 4512
2.5.6.1 alias RFC 4512
2.5.6.10 residentialPerson RFC 4519
2.5.6.11 applicationProcess RFC 4519
2.5.6.14 device RFC 4519
2.5.6.15 strongAuthenticationUser RFC 4523
2.5.6.16 certificationAuthority RFC 4523
2.5.6.16.2 certificationAuthority-V2 RFC 4523
2.5.6.17 groupOfUniqueNames RFC 4519
2.5.6.18 userSecurityInformation RFC 4523
2.5.6.19 cRLDistributionPoint RFC 4523
2.5.6.2 country RFC 4519
2.5.6.20 dmd RFC 2256
2.5.6.21 pkiUser RFC 4523
2.5.6.22 pkiCA RFC 4523
2.5.6.23 deltaCRL RFC 4523
2.5.6.3 locality RFC 4519
2.5.6.4 organization RFC 4519
2.5.6.5 organizationalUnit RFC 4519
2.5.6.6 person RFC 4519
2.5.6.7 organizationalPerson RFC 4519
2.5.6.8 organizationalRole RFC 4519
2.5.6.9 groupOfNames RFC 4519
2.5.8.1.1 rsa X.509
2.5.8.3.100 mdc2WithRSA X.509
2.5.8.3.101 mdc2 X.509
";

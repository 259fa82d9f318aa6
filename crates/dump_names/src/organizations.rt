// Names under 1.3, identified organizations: PKIX, SEC 2, Teletrust, Microsoft, Sigstore, SNMP.
pub const ORGANIZATIONS: &str = "\
1.3.101.1.4.1 SXNetID Thawte
1.3.101.110 X25519 RFC 8410
1.3.101.111 X448 RFC 8410
1.3.101.112 Ed25519 RFC 8410
1.3.101.113 Ed448 RFC 8410
1.3.111.2.1619.0.1.1 aes-128-xts IEEE 1619
1.3.111.2.1619.0.1.2 aes-256-xts IEEE 1619
1.3.132.0.1 sect163k1 RFC 5480
1.3.132.0.10 secp256k1 SEC 2
1.3.132.0.15 sect163r2 RFC 5480
1.3.132.0.16 sect283k1 RFC 5480
1.3.132.0.17 sect283r1 RFC 5480
1.3.132.0.2 sect163r1 SEC 2
1.3.132.0.22 sect131r1 SEC 2
1.3.132.0.23 sect131r2 SEC 2
1.3.132.0.24 sect193r1 SEC 2
1.3.132.0.25 sect193r2 SEC 2
1.3.132.0.26 sect233k1 RFC 5480
1.3.132.0.27 sect233r1 RFC 5480
1.3.132.0.28 secp128r1 SEC 2
1.3.132.0.29 secp128r2 SEC 2
1.3.132.0.3 sect239k1 SEC 2
1.3.132.0.30 secp160r2 SEC 2
1.3.132.0.31 secp192k1 SEC 2
1.3.132.0.32 secp224k1 SEC 2
1.3.132.0.33 secp224r1 RFC 5480
1.3.132.0.34 secp384r1 RFC 5480
1.3.132.0.35 secp521r1 RFC 5480
1.3.132.0.36 sect409k1 RFC 5480
1.3.132.0.37 sect409r1 RFC 5480
1.3.132.0.38 sect571k1 RFC 5480
1.3.132.0.39 sect571r1 RFC 5480
1.3.132.0.4 sect113r1 SEC 2
1.3.132.0.5 sect113r2 SEC 2
1.3.132.0.6 secp112r1 SEC 2
1.3.132.0.7 secp112r2 SEC 2
1.3.132.0.8 secp160r1 SEC 2
1.3.132.0.9 secp160k1 SEC 2
1.3.132.1.11.0 dhSinglePass-stdDH-sha224kdf-scheme SEC 2
1.3.132.1.11.1 dhSinglePass-stdDH-sha256kdf-scheme SEC 2
1.3.132.1.11.2 dhSinglePass-stdDH-sha384kdf-scheme SEC 2
1.3.132.1.11.3 dhSinglePass-stdDH-sha512kdf-scheme SEC 2
1.3.132.1.12 ecDH RFC 5480
1.3.132.1.13 ecMQV RFC 5480
1.3.132.1.14.0 dhSinglePass-cofactorDH-sha224kdf-scheme SEC 2
1.3.132.1.14.1 dhSinglePass-cofactorDH-sha256kdf-scheme SEC 2
1.3.132.1.14.2 dhSinglePass-cofactorDH-sha384kdf-scheme SEC 2
1.3.132.1.14.3 dhSinglePass-cofactorDH-sha512kdf-scheme SEC 2
1.3.133.16.840.63.0.2 dhSinglePass-stdDH-sha1kdf-scheme X9.63
1.3.133.16.840.63.0.3 dhSinglePass-cofactorDH-sha1kdf-scheme X9.63
1.3.14.3.2.11 rsaSignature OIW
1.3.14.3.2.12 dsaEncryption-old OIW
1.3.14.3.2.13 dsaWithSHA OIW
1.3.14.3.2.15 shaWithRSAEncryption OIW
1.3.14.3.2.17 des-ede OIW
1.3.14.3.2.18 sha OIW
1.3.14.3.2.26 sha1 RFC 8017
1.3.14.3.2.27 dsaWithSHA1-old OIW
1.3.14.3.2.29 sha1WithRSA OIW
1.3.14.3.2.3 md5WithRSA OIW
1.3.14.3.2.6 des-ecb OIW
1.3.14.3.2.7 desCBC RFC 8018
1.3.14.3.2.8 des-ofb OIW
1.3.14.3.2.9 des-cfb OIW
1.3.36.3.2.1 ripemd160 TeleTrusT
1.3.36.3.3.1.2 ripemd160WithRSA TeleTrusT
1.3.36.3.3.2.8.1.1.1 brainpoolP160r1 RFC 5639
1.3.36.3.3.2.8.1.1.10 brainpoolP320t1 RFC 5639
1.3.36.3.3.2.8.1.1.11 brainpoolP384r1 RFC 5639
1.3.36.3.3.2.8.1.1.12 brainpoolP384t1 RFC 5639
1.3.36.3.3.2.8.1.1.13 brainpoolP512r1 RFC 5639
1.3.36.3.3.2.8.1.1.14 brainpoolP512t1 RFC 5639
1.3.36.3.3.2.8.1.1.2 brainpoolP160t1 RFC 5639
1.3.36.3.3.2.8.1.1.3 brainpoolP192r1 RFC 5639
1.3.36.3.3.2.8.1.1.4 brainpoolP192t1 RFC 5639
1.3.36.3.3.2.8.1.1.5 brainpoolP224r1 RFC 5639
1.3.36.3.3.2.8.1.1.6 brainpoolP224t1 RFC 5639
1.3.36.3.3.2.8.1.1.7 brainpoolP256r1 RFC 5639
1.3.36.3.3.2.8.1.1.8 brainpoolP256t1 RFC 5639
1.3.36.3.3.2.8.1.1.9 brainpoolP320r1 RFC 5639
1.3.36.8.3.3 x509ExtAdmission TeleTrusT
1.3.6.1.1.1.1.0 uidNumber RFC 2307
1.3.6.1.1.1.1.1 gidNumber RFC 2307
1.3.6.1.1.1.1.10 shadowExpire RFC 2307
1.3.6.1.1.1.1.11 shadowFlag RFC 2307
1.3.6.1.1.1.1.12 memberUid RFC 2307
1.3.6.1.1.1.1.13 memberNisNetgroup RFC 2307
1.3.6.1.1.1.1.14 nisNetgroupTriple RFC 2307
1.3.6.1.1.1.1.15 ipServicePort RFC 2307
1.3.6.1.1.1.1.16 ipServiceProtocol RFC 2307
1.3.6.1.1.1.1.17 ipProtocolNumber RFC 2307
1.3.6.1.1.1.1.18 oncRpcNumber RFC 2307
1.3.6.1.1.1.1.19 ipHostNumber RFC 2307
1.3.6.1.1.1.1.2 gecos RFC 2307
1.3.6.1.1.1.1.20 ipNetworkNumber RFC 2307
1.3.6.1.1.1.1.21 ipNetmaskNumber RFC 2307
1.3.6.1.1.1.1.22 macAddress RFC 2307
1.3.6.1.1.1.1.3 homeDirectory RFC 2307
1.3.6.1.1.1.1.4 loginShell RFC 2307
1.3.6.1.1.1.1.5 shadowLastChange RFC 2307
1.3.6.1.1.1.1.6 shadowMin RFC 2307
1.3.6.1.1.1.1.7 shadowMax RFC 2307
1.3.6.1.1.1.1.8 shadowWarning RFC 2307
1.3.6.1.1.1.1.9 shadowInactive RFC 2307
1.3.6.1.1.1.2.0 posixAccount RFC 2307
1.3.6.1.1.1.2.1 shadowAccount RFC 2307
1.3.6.1.1.1.2.2 posixGroup RFC 2307
1.3.6.1.1.1.2.3 ipService RFC 2307
1.3.6.1.1.1.2.6 ipHost RFC 2307
1.3.6.1.1.1.2.7 ipNetwork RFC 2307
1.3.6.1.1.12 assertion RFC 4528
1.3.6.1.1.13.1 preRead RFC 4527
1.3.6.1.1.13.2 postRead RFC 4527
1.3.6.1.1.14 modifyIncrement RFC 4525
1.3.6.1.1.16.4 entryUUID RFC 4530
1.3.6.1.1.18.1 contextCSN RFC 4533
1.3.6.1.1.20 entryDN RFC 5020
1.3.6.1.1.21.1 startTransaction RFC 5805
1.3.6.1.1.21.3 endTransaction RFC 5805
1.3.6.1.1.3.1 uidObject RFC 4519
1.3.6.1.1.8 cancel RFC 3909
1.3.6.1.2.1.1.1 sysDescr RFC 3418
1.3.6.1.2.1.1.1.0 sysDescr.0 RFC 3418
1.3.6.1.2.1.1.2 sysObjectID RFC 3418
1.3.6.1.2.1.1.2.0 sysObjectID.0 RFC 3418
1.3.6.1.2.1.1.3 sysUpTime RFC 3418
1.3.6.1.2.1.1.3.0 sysUpTime.0 RFC 3418
1.3.6.1.2.1.1.4 sysContact RFC 3418
1.3.6.1.2.1.1.4.0 sysContact.0 RFC 3418
1.3.6.1.2.1.1.5 sysName RFC 3418
1.3.6.1.2.1.1.5.0 sysName.0 RFC 3418
1.3.6.1.2.1.1.6 sysLocation RFC 3418
1.3.6.1.2.1.1.6.0 sysLocation.0 RFC 3418
1.3.6.1.2.1.1.7 sysServices RFC 3418
1.3.6.1.2.1.1.7.0 sysServices.0 RFC 3418
1.3.6.1.2.1.11.30 snmpEnableAuthenTraps RFC 3418
1.3.6.1.2.1.2.1 ifNumber RFC 2863
1.3.6.1.2.1.2.1.0 ifNumber.0 RFC 2863
1.3.6.1.2.1.2.2 ifTable RFC 2863
1.3.6.1.2.1.2.2.1 ifEntry RFC 2863
1.3.6.1.2.1.2.2.1.1 ifIndex RFC 2863
1.3.6.1.2.1.2.2.1.10 ifInOctets RFC 2863
1.3.6.1.2.1.2.2.1.11 ifInUcastPkts RFC 2863
1.3.6.1.2.1.2.2.1.13 ifInDiscards RFC 2863
1.3.6.1.2.1.2.2.1.14 ifInErrors RFC 2863
1.3.6.1.2.1.2.2.1.16 ifOutOctets RFC 2863
1.3.6.1.2.1.2.2.1.17 ifOutUcastPkts RFC 2863
1.3.6.1.2.1.2.2.1.19 ifOutDiscards RFC 2863
1.3.6.1.2.1.2.2.1.2 ifDescr RFC 2863
1.3.6.1.2.1.2.2.1.20 ifOutErrors RFC 2863
1.3.6.1.2.1.2.2.1.3 ifType RFC 2863
1.3.6.1.2.1.2.2.1.4 ifMtu RFC 2863
1.3.6.1.2.1.2.2.1.5 ifSpeed RFC 2863
1.3.6.1.2.1.2.2.1.6 ifPhysAddress RFC 2863
1.3.6.1.2.1.2.2.1.7 ifAdminStatus RFC 2863
1.3.6.1.2.1.2.2.1.8 ifOperStatus RFC 2863
1.3.6.1.2.1.2.2.1.9 ifLastChange RFC 2863
1.3.6.1.2.1.25.1.1 hrSystemUptime RFC 2790
1.3.6.1.2.1.25.1.1.0 hrSystemUptime.0 RFC 2790
1.3.6.1.2.1.31.1.1 ifXTable RFC 2863
1.3.6.1.2.1.31.1.1.1 ifXEntry RFC 2863
1.3.6.1.2.1.31.1.1.1.1 ifName RFC 2863
1.3.6.1.2.1.31.1.1.1.10 ifHCOutOctets RFC 2863
1.3.6.1.2.1.31.1.1.1.15 ifHighSpeed RFC 2863
1.3.6.1.2.1.31.1.1.1.18 ifAlias RFC 2863
1.3.6.1.2.1.31.1.1.1.6 ifHCInOctets RFC 2863
1.3.6.1.4.1.11129.2.1.17 androidKeyAttestation Google
1.3.6.1.4.1.11129.2.4.2 signedCertificateTimestampList RFC 6962
1.3.6.1.4.1.11129.2.4.3 ctPoison RFC 6962
1.3.6.1.4.1.11129.2.4.4 ctPrecertificateSigning RFC 6962
1.3.6.1.4.1.11129.2.4.5 ctOcspSctList RFC 6962
1.3.6.1.4.1.11591.4.11 scrypt RFC 7914
1.3.6.1.4.1.1466.101.120.1 administratorsAddress RFC 2252
1.3.6.1.4.1.1466.101.120.111 extensibleObject RFC 4512
1.3.6.1.4.1.1466.101.120.13 supportedControl RFC 4512
1.3.6.1.4.1.1466.101.120.14 supportedSASLMechanisms RFC 4512
1.3.6.1.4.1.1466.101.120.15 supportedLDAPVersion RFC 4512
1.3.6.1.4.1.1466.101.120.16 ldapSyntaxes RFC 4512
1.3.6.1.4.1.1466.101.120.5 namingContexts RFC 4512
1.3.6.1.4.1.1466.101.120.6 altServer RFC 4512
1.3.6.1.4.1.1466.101.120.7 supportedExtension RFC 4512
1.3.6.1.4.1.1466.109.114.1 caseExactIA5Match RFC 4517
1.3.6.1.4.1.1466.109.114.2 caseIgnoreIA5Match RFC 4517
1.3.6.1.4.1.1466.109.114.3 caseIgnoreIA5SubstringsMatch RFC 4517
1.3.6.1.4.1.1466.20036 noticeOfDisconnection RFC 4511
1.3.6.1.4.1.1466.20037 startTLS RFC 4511
1.3.6.1.4.1.1466.344 dcObject RFC 2247
1.3.6.1.4.1.1722.12.2.1 blake2bmac RFC 7693
1.3.6.1.4.1.1722.12.2.1.16 blake2b512 RFC 7693
1.3.6.1.4.1.1722.12.2.2 blake2smac RFC 7693
1.3.6.1.4.1.1722.12.2.2.8 blake2s256 RFC 7693
1.3.6.1.4.1.188.7.1.1.2 idea-cbc Ascom
1.3.6.1.4.1.250.1.57 labeledURI RFC 2079
1.3.6.1.4.1.250.3.15 labeledURIObject RFC 2079
1.3.6.1.4.1.3029.1.2 bf-cbc Cryptlib
1.3.6.1.4.1.311.10.1 certTrustList Microsoft
1.3.6.1.4.1.311.10.12.1 anyApplicationPolicy Microsoft
1.3.6.1.4.1.311.10.3.1 certTrustListSigning Microsoft
1.3.6.1.4.1.311.10.3.10 qualifiedSubordination Microsoft
1.3.6.1.4.1.311.10.3.11 keyRecovery Microsoft
1.3.6.1.4.1.311.10.3.12 documentSigning Microsoft
1.3.6.1.4.1.311.10.3.13 lifetimeSigning Microsoft
1.3.6.1.4.1.311.10.3.2 timeStampSigning Microsoft
1.3.6.1.4.1.311.10.3.3 serverGatedCrypto Microsoft
1.3.6.1.4.1.311.10.3.4 encryptedFileSystem Microsoft
1.3.6.1.4.1.311.10.3.4.1 efsRecovery Microsoft
1.3.6.1.4.1.311.10.3.5 whqlCrypto Microsoft
1.3.6.1.4.1.311.10.3.6 nt5Crypto Microsoft
1.3.6.1.4.1.311.10.3.7 oemWHQLCrypto Microsoft
1.3.6.1.4.1.311.10.3.8 embeddedNTCrypto Microsoft
1.3.6.1.4.1.311.10.3.9 rootListSigner Microsoft
1.3.6.1.4.1.311.12.1.1 catalogList Microsoft
1.3.6.1.4.1.311.12.1.2 catalogListMember Microsoft
1.3.6.1.4.1.311.12.2.1 catalogNameValue Microsoft
1.3.6.1.4.1.311.12.2.2 catalogMemberInfo Microsoft
1.3.6.1.4.1.311.13.1 renewalCertificate Microsoft
1.3.6.1.4.1.311.13.2.1 enrollmentNameValuePair Microsoft
1.3.6.1.4.1.311.13.2.2 enrollmentCSP Microsoft
1.3.6.1.4.1.311.13.2.3 osVersion Microsoft
1.3.6.1.4.1.311.17.1 cspName Microsoft
1.3.6.1.4.1.311.17.2 LocalKeySet Microsoft
1.3.6.1.4.1.311.17.3 pkcs12ExtendedAttributes Microsoft
1.3.6.1.4.1.311.2.1.10 spcAgencyInfo Microsoft
1.3.6.1.4.1.311.2.1.11 spcStatementType Microsoft
1.3.6.1.4.1.311.2.1.12 spcSpOpusInfo Microsoft
1.3.6.1.4.1.311.2.1.14 msExtReq Microsoft
1.3.6.1.4.1.311.2.1.15 spcPEImageData Microsoft
1.3.6.1.4.1.311.2.1.21 individualCodeSigning Microsoft
1.3.6.1.4.1.311.2.1.22 commercialCodeSigning Microsoft
1.3.6.1.4.1.311.2.1.25 spcCabData Microsoft
1.3.6.1.4.1.311.2.1.30 spcSipInfo Microsoft
1.3.6.1.4.1.311.2.1.4 spcIndirectDataContext Microsoft
1.3.6.1.4.1.311.2.2.10 ntlmssp Microsoft
1.3.6.1.4.1.311.2.2.30 negoex Microsoft
1.3.6.1.4.1.311.2.4.1 nestedSignature Microsoft
1.3.6.1.4.1.311.20.2 certificateTemplateName Microsoft
1.3.6.1.4.1.311.20.2.1 enrollmentAgent Microsoft
1.3.6.1.4.1.311.20.2.2 smartcardLogon Microsoft
1.3.6.1.4.1.311.20.2.3 userPrincipalName Microsoft
1.3.6.1.4.1.311.21.1 caVersion Microsoft
1.3.6.1.4.1.311.21.10 applicationCertificatePolicies Microsoft
1.3.6.1.4.1.311.21.11 applicationPolicyMappings Microsoft
1.3.6.1.4.1.311.21.12 applicationPolicyConstraints Microsoft
1.3.6.1.4.1.311.21.13 archivedKey Microsoft
1.3.6.1.4.1.311.21.14 crlSelfCDP Microsoft
1.3.6.1.4.1.311.21.19 dsEmailReplication Microsoft
1.3.6.1.4.1.311.21.2 previousCaCertificateHash Microsoft
1.3.6.1.4.1.311.21.20 requestClientInfo Microsoft
1.3.6.1.4.1.311.21.22 crossCaVersion Microsoft
1.3.6.1.4.1.311.21.3 crlVirtualBase Microsoft
1.3.6.1.4.1.311.21.4 crlNextPublish Microsoft
1.3.6.1.4.1.311.21.5 caExchange Microsoft
1.3.6.1.4.1.311.21.6 keyRecoveryAgent Microsoft
1.3.6.1.4.1.311.21.7 certificateTemplate Microsoft
1.3.6.1.4.1.311.25.1 ntdsReplication Microsoft
1.3.6.1.4.1.311.25.2 ntdsCaSecurity Microsoft
1.3.6.1.4.1.311.25.2.1 ntdsObjectSid Microsoft
1.3.6.1.4.1.311.3.2.1 spcTimeStampRequest Microsoft
1.3.6.1.4.1.311.3.3.1 rfc3161CounterSign Microsoft
1.3.6.1.4.1.311.54.1.2 remoteDesktopAuthentication Microsoft
1.3.6.1.4.1.311.60.1.1 rootProgramFlags Microsoft
1.3.6.1.4.1.311.60.2.1.1 jurisdictionLocalityName Microsoft
1.3.6.1.4.1.311.60.2.1.2 jurisdictionStateOrProvinceName Microsoft
1.3.6.1.4.1.311.60.2.1.3 jurisdictionCountryName Microsoft
1.3.6.1.4.1.311.61.1.1 kernelModeCodeSigning Microsoft
1.3.6.1.4.1.311.67.1.1 bitLockerDriveEncryption Microsoft
1.3.6.1.4.1.311.67.1.2 bitLockerDataRecoveryAgent Microsoft
1.3.6.1.4.1.311.80.1 documentEncryption Microsoft
1.3.6.1.4.1.4203.1.10.1 subentries RFC 3672
1.3.6.1.4.1.4203.1.11.1 passwordModify RFC 3062
1.3.6.1.4.1.4203.1.11.3 whoAmI RFC 4532
1.3.6.1.4.1.4203.1.3.5 supportedFeatures RFC 4512
1.3.6.1.4.1.4203.1.9.1.1 syncRequest RFC 4533
1.3.6.1.4.1.4203.1.9.1.2 syncState RFC 4533
1.3.6.1.4.1.4203.1.9.1.3 syncDone RFC 4533
1.3.6.1.4.1.4203.1.9.1.4 syncInfo RFC 4533
1.3.6.1.4.1.45724.1.1.4 id-fido-gen-ce-aaguid FIDO
1.3.6.1.4.1.57264.1.1 issuer Sigstore
1.3.6.1.4.1.57264.1.10 buildSignerDigest Sigstore
1.3.6.1.4.1.57264.1.11 runnerEnvironment Sigstore
1.3.6.1.4.1.57264.1.12 sourceRepositoryURI Sigstore
1.3.6.1.4.1.57264.1.13 sourceRepositoryDigest Sigstore
1.3.6.1.4.1.57264.1.14 sourceRepositoryRef Sigstore
1.3.6.1.4.1.57264.1.15 sourceRepositoryIdentifier Sigstore
1.3.6.1.4.1.57264.1.16 sourceRepositoryOwnerURI Sigstore
1.3.6.1.4.1.57264.1.17 sourceRepositoryOwnerIdentifier Sigstore
1.3.6.1.4.1.57264.1.18 buildConfigURI Sigstore
1.3.6.1.4.1.57264.1.19 buildConfigDigest Sigstore
1.3.6.1.4.1.57264.1.2 gitHubWorkflowTrigger Sigstore
1.3.6.1.4.1.57264.1.20 buildTrigger Sigstore
1.3.6.1.4.1.57264.1.21 runInvocationURI Sigstore
1.3.6.1.4.1.57264.1.22 sourceRepositoryVisibilityAtSigning Sigstore
1.3.6.1.4.1.57264.1.3 gitHubWorkflowSHA Sigstore
1.3.6.1.4.1.57264.1.4 gitHubWorkflowName Sigstore
1.3.6.1.4.1.57264.1.5 gitHubWorkflowRepository Sigstore
1.3.6.1.4.1.57264.1.6 gitHubWorkflowRef Sigstore
1.3.6.1.4.1.57264.1.7 otherName Sigstore
1.3.6.1.4.1.57264.1.8 issuerV2 Sigstore
1.3.6.1.4.1.57264.1.9 buildSignerURI Sigstore
1.3.6.1.4.1.6189.3.4.1.1 atosTrustedRootPolicy Atos
1.3.6.1.4.1.8024.0.3 quoVadisRootCA3Policy QuoVadis
1.3.6.1.5.2.2 pkinitSan RFC 4556
1.3.6.1.5.2.3.1 pkinitAuthData RFC 4556
1.3.6.1.5.2.3.2 pkinitDHKeyData RFC 4556
1.3.6.1.5.2.3.3 pkinitRkeyData RFC 4556
1.3.6.1.5.2.3.4 pkinitKPClientAuth RFC 4556
1.3.6.1.5.2.3.5 pkinitKPKdc RFC 4556
1.3.6.1.5.5.2 spnego RFC 4178
1.3.6.1.5.5.7.0 id-pkix-mod RFC 7299
1.3.6.1.5.5.7.0.1 id-pkix1-explicit-88 RFC 7299
1.3.6.1.5.5.7.0.10 id-mod-qualified-cert-88 RFC 7299
1.3.6.1.5.5.7.0.11 id-mod-qualified-cert-93 RFC 7299
1.3.6.1.5.5.7.0.12 id-mod-attribute-cert RFC 7299
1.3.6.1.5.5.7.0.13 id-mod-timestamp-protocol RFC 7299
1.3.6.1.5.5.7.0.14 id-mod-ocsp RFC 7299
1.3.6.1.5.5.7.0.15 id-mod-dvcs RFC 7299
1.3.6.1.5.5.7.0.16 id-mod-cmp2000 RFC 7299
1.3.6.1.5.5.7.0.2 id-pkix1-implicit-88 RFC 7299
1.3.6.1.5.5.7.0.3 id-pkix1-explicit-93 RFC 7299
1.3.6.1.5.5.7.0.4 id-pkix1-implicit-93 RFC 7299
1.3.6.1.5.5.7.0.5 id-mod-crmf RFC 7299
1.3.6.1.5.5.7.0.6 id-mod-cmc RFC 7299
1.3.6.1.5.5.7.0.7 id-mod-kea-profile-88 RFC 7299
1.3.6.1.5.5.7.0.8 id-mod-kea-profile-93 RFC 7299
1.3.6.1.5.5.7.0.9 id-mod-cmp RFC 7299
1.3.6.1.5.5.7.1 id-pe RFC 7299
1.3.6.1.5.5.7.1.1 authorityInfoAccess RFC 5280
1.3.6.1.5.5.7.1.10 ac-proxying RFC 7299
1.3.6.1.5.5.7.1.11 subjectInfoAccess RFC 5280
1.3.6.1.5.5.7.1.12 logotype RFC 3709
1.3.6.1.5.5.7.1.14 proxyCertInfo RFC 3820
1.3.6.1.5.5.7.1.2 biometricInfo RFC 7299
1.3.6.1.5.5.7.1.24 tlsFeature RFC 7633
1.3.6.1.5.5.7.1.28 sbgp-ipAddrBlockv2 RFC 7299
1.3.6.1.5.5.7.1.29 sbgp-autonomousSysNumv2 RFC 7299
1.3.6.1.5.5.7.1.3 qcStatements RFC 3739
1.3.6.1.5.5.7.1.31 acmeIdentifier RFC 8737
1.3.6.1.5.5.7.1.4 ac-auditEntity RFC 7299
1.3.6.1.5.5.7.1.5 ac-targeting RFC 7299
1.3.6.1.5.5.7.1.6 aaControls RFC 7299
1.3.6.1.5.5.7.1.7 ipAddrBlocks RFC 3779
1.3.6.1.5.5.7.1.8 autonomousSysIds RFC 3779
1.3.6.1.5.5.7.1.9 sbgp-routerIdentifier RFC 7299
1.3.6.1.5.5.7.10 id-aca RFC 7299
1.3.6.1.5.5.7.10.1 id-aca-authenticationInfo RFC 7299
1.3.6.1.5.5.7.10.2 id-aca-accessIdentity RFC 7299
1.3.6.1.5.5.7.10.3 id-aca-chargingIdentity RFC 7299
1.3.6.1.5.5.7.10.4 id-aca-group RFC 7299
1.3.6.1.5.5.7.10.5 id-aca-role RFC 7299
1.3.6.1.5.5.7.10.6 id-aca-encAttrs RFC 7299
1.3.6.1.5.5.7.11 id-qcs RFC 7299
1.3.6.1.5.5.7.11.1 qcsPkixQCSyntaxV1 RFC 3739
1.3.6.1.5.5.7.11.2 qcsPkixQCSyntaxV2 RFC 3739
1.3.6.1.5.5.7.12 id-cct RFC 7299
1.3.6.1.5.5.7.12.1 id-cct-crs RFC 7299
1.3.6.1.5.5.7.12.2 id-cct-PKIData RFC 7299
1.3.6.1.5.5.7.12.3 id-cct-PKIResponse RFC 7299
1.3.6.1.5.5.7.14 id-cp RFC 7299
1.3.6.1.5.5.7.14.2 ipAddr-asNumber RFC 7299
1.3.6.1.5.5.7.14.3 ipAddr-asNumberv2 RFC 7299
1.3.6.1.5.5.7.2 id-qt RFC 7299
1.3.6.1.5.5.7.2.1 cps RFC 5280
1.3.6.1.5.5.7.2.2 unotice RFC 5280
1.3.6.1.5.5.7.2.3 textNotice RFC 7299
1.3.6.1.5.5.7.21 id-ppl RFC 7299
1.3.6.1.5.5.7.21.0 id-ppl-anyLanguage RFC 7299
1.3.6.1.5.5.7.21.1 id-ppl-inheritAll RFC 7299
1.3.6.1.5.5.7.21.2 id-ppl-independent RFC 7299
1.3.6.1.5.5.7.3 id-kp RFC 7299
1.3.6.1.5.5.7.3.1 serverAuth RFC 5280
1.3.6.1.5.5.7.3.10 dvcs RFC 7299
1.3.6.1.5.5.7.3.17 ipsecIKE RFC 4945
1.3.6.1.5.5.7.3.18 capwapAC RFC 7299
1.3.6.1.5.5.7.3.19 capwapWTP RFC 7299
1.3.6.1.5.5.7.3.2 clientAuth RFC 5280
1.3.6.1.5.5.7.3.21 secureShellClient RFC 7299
1.3.6.1.5.5.7.3.22 secureShellServer RFC 7299
1.3.6.1.5.5.7.3.23 sendRouter RFC 7299
1.3.6.1.5.5.7.3.24 sendProxiedRouter RFC 7299
1.3.6.1.5.5.7.3.25 sendOwner RFC 7299
1.3.6.1.5.5.7.3.26 sendProxiedOwner RFC 7299
1.3.6.1.5.5.7.3.27 cmcCA RFC 7299
1.3.6.1.5.5.7.3.28 cmcRA RFC 7299
1.3.6.1.5.5.7.3.29 cmcArchive RFC 7299
1.3.6.1.5.5.7.3.3 codeSigning RFC 5280
1.3.6.1.5.5.7.3.30 id-kp-bgpsec-router RFC 7299
1.3.6.1.5.5.7.3.31 id-kp-BrandIndicatorforMessageIdentification RFC 7299
1.3.6.1.5.5.7.3.32 cmKGA RFC 7299
1.3.6.1.5.5.7.3.4 emailProtection RFC 5280
1.3.6.1.5.5.7.3.5 ipsecEndSystem RFC 7299
1.3.6.1.5.5.7.3.6 ipsecTunnel RFC 7299
1.3.6.1.5.5.7.3.7 ipsecUser RFC 7299
1.3.6.1.5.5.7.3.8 timeStamping RFC 5280
1.3.6.1.5.5.7.3.9 OCSPSigning RFC 5280
1.3.6.1.5.5.7.4 id-it RFC 7299
1.3.6.1.5.5.7.4.1 id-it-caProtEncCert RFC 7299
1.3.6.1.5.5.7.4.10 id-it-keyPairParamReq RFC 7299
1.3.6.1.5.5.7.4.11 id-it-keyPairParamRep RFC 7299
1.3.6.1.5.5.7.4.12 id-it-revPassphrase RFC 7299
1.3.6.1.5.5.7.4.13 id-it-implicitConfirm RFC 7299
1.3.6.1.5.5.7.4.14 id-it-confirmWaitTime RFC 7299
1.3.6.1.5.5.7.4.15 id-it-origPKIMessage RFC 7299
1.3.6.1.5.5.7.4.16 id-it-suppLangTags RFC 7299
1.3.6.1.5.5.7.4.17 id-it-caCerts RFC 7299
1.3.6.1.5.5.7.4.18 id-it-rootCaKeyUpdate RFC 7299
1.3.6.1.5.5.7.4.19 id-it-certReqTemplate RFC 7299
1.3.6.1.5.5.7.4.2 id-it-signKeyPairTypes RFC 7299
1.3.6.1.5.5.7.4.3 id-it-encKeyPairTypes RFC 7299
1.3.6.1.5.5.7.4.4 id-it-preferredSymmAlg RFC 7299
1.3.6.1.5.5.7.4.5 id-it-caKeyUpdateInfo RFC 7299
1.3.6.1.5.5.7.4.6 id-it-currentCRL RFC 7299
1.3.6.1.5.5.7.4.7 id-it-unsupportedOIDs RFC 7299
1.3.6.1.5.5.7.4.8 id-it-subscriptionRequest RFC 7299
1.3.6.1.5.5.7.4.9 id-it-subscriptionResponse RFC 7299
1.3.6.1.5.5.7.48 id-ad RFC 7299
1.3.6.1.5.5.7.48.1 ocsp RFC 6960
1.3.6.1.5.5.7.48.1.1 ocspBasic RFC 6960
1.3.6.1.5.5.7.48.1.2 ocspNonce RFC 6960
1.3.6.1.5.5.7.48.1.3 ocspCrl RFC 6960
1.3.6.1.5.5.7.48.1.4 ocspResponse RFC 6960
1.3.6.1.5.5.7.48.1.5 ocspNoCheck RFC 6960
1.3.6.1.5.5.7.48.1.6 ocspArchiveCutoff RFC 6960
1.3.6.1.5.5.7.48.1.7 ocspServiceLocator RFC 6960
1.3.6.1.5.5.7.48.1.8 ocspPrefSigAlgs RFC 6960
1.3.6.1.5.5.7.48.1.9 ocspExtendedRevoke RFC 6960
1.3.6.1.5.5.7.48.10 rpkiManifest RFC 7299
1.3.6.1.5.5.7.48.11 signedObject RFC 7299
1.3.6.1.5.5.7.48.13 rpkiNotify RFC 7299
1.3.6.1.5.5.7.48.2 caIssuers RFC 5280
1.3.6.1.5.5.7.48.3 timeStamping RFC 3161
1.3.6.1.5.5.7.48.4 AD_DVCS RFC 7299
1.3.6.1.5.5.7.48.5 caRepository RFC 5280
1.3.6.1.5.5.7.5 id-pkip RFC 7299
1.3.6.1.5.5.7.5.1 id-regCtrl RFC 7299
1.3.6.1.5.5.7.5.1.1 id-regCtrl-regToken RFC 7299
1.3.6.1.5.5.7.5.1.2 id-regCtrl-authenticator RFC 7299
1.3.6.1.5.5.7.5.1.3 id-regCtrl-pkiPublicationInfo RFC 7299
1.3.6.1.5.5.7.5.1.4 id-regCtrl-pkiArchiveOptions RFC 7299
1.3.6.1.5.5.7.5.1.5 id-regCtrl-oldCertID RFC 7299
1.3.6.1.5.5.7.5.1.6 id-regCtrl-protocolEncrKey RFC 7299
1.3.6.1.5.5.7.5.2 id-regInfo RFC 7299
1.3.6.1.5.5.7.5.2.1 id-regInfo-utf8Pairs RFC 7299
1.3.6.1.5.5.7.5.2.2 id-regInfo-certReq RFC 7299
1.3.6.1.5.5.7.6 id-alg RFC 7299
1.3.6.1.5.5.7.6.1 id-alg-des40 RFC 7299
1.3.6.1.5.5.7.6.2 id-alg-noSignature RFC 7299
1.3.6.1.5.5.7.6.3 id-alg-dh-sig-hmac-sha1 RFC 7299
1.3.6.1.5.5.7.6.30 id-RSASSA-PSS-SHAKE128 RFC 8702
1.3.6.1.5.5.7.6.31 id-RSASSA-PSS-SHAKE256 RFC 8702
1.3.6.1.5.5.7.6.32 id-ecdsa-with-shake128 RFC 8692
1.3.6.1.5.5.7.6.33 id-ecdsa-with-shake256 RFC 8692
1.3.6.1.5.5.7.6.4 id-alg-dh-pop RFC 7299
1.3.6.1.5.5.7.7 id-cmc RFC 7299
1.3.6.1.5.5.7.7.1 id-cmc-statusInfo RFC 7299
1.3.6.1.5.5.7.7.10 id-cmc-decryptedPOP RFC 7299
1.3.6.1.5.5.7.7.11 id-cmc-lraPOPWitness RFC 7299
1.3.6.1.5.5.7.7.15 id-cmc-getCert RFC 7299
1.3.6.1.5.5.7.7.16 id-cmc-getCRL RFC 7299
1.3.6.1.5.5.7.7.17 id-cmc-revokeRequest RFC 7299
1.3.6.1.5.5.7.7.18 id-cmc-regInfo RFC 7299
1.3.6.1.5.5.7.7.19 id-cmc-responseInfo RFC 7299
1.3.6.1.5.5.7.7.2 id-cmc-identification RFC 7299
1.3.6.1.5.5.7.7.21 id-cmc-queryPending RFC 7299
1.3.6.1.5.5.7.7.22 id-cmc-popLinkRandom RFC 7299
1.3.6.1.5.5.7.7.23 id-cmc-popLinkWitness RFC 7299
1.3.6.1.5.5.7.7.24 id-cmc-confirmCertAcceptance RFC 7299
1.3.6.1.5.5.7.7.3 id-cmc-identityProof RFC 7299
1.3.6.1.5.5.7.7.4 id-cmc-dataReturn RFC 7299
1.3.6.1.5.5.7.7.5 id-cmc-transactionId RFC 7299
1.3.6.1.5.5.7.7.6 id-cmc-senderNonce RFC 7299
1.3.6.1.5.5.7.7.7 id-cmc-recipientNonce RFC 7299
1.3.6.1.5.5.7.7.8 id-cmc-addExtensions RFC 7299
1.3.6.1.5.5.7.7.9 id-cmc-encryptedPOP RFC 7299
1.3.6.1.5.5.7.8 id-on RFC 7299
1.3.6.1.5.5.7.8.1 id-on-personalData RFC 7299
1.3.6.1.5.5.7.8.3 id-on-permanentIdentifier RFC 7299
1.3.6.1.5.5.7.8.4 hardwareModuleName RFC 4108
1.3.6.1.5.5.7.8.5 xmppAddr RFC 6120
1.3.6.1.5.5.7.8.7 dnsSRV RFC 4985
1.3.6.1.5.5.7.8.8 id-on-NAIRealm RFC 7299
1.3.6.1.5.5.7.8.9 smtpUTF8Mailbox RFC 8398
1.3.6.1.5.5.7.9 id-pda RFC 7299
1.3.6.1.5.5.7.9.1 dateOfBirth RFC 3739
1.3.6.1.5.5.7.9.2 placeOfBirth RFC 3739
1.3.6.1.5.5.7.9.3 gender RFC 3739
1.3.6.1.5.5.7.9.4 countryOfCitizenship RFC 3739
1.3.6.1.5.5.7.9.5 countryOfResidence RFC 3739
1.3.6.1.5.5.8.1.1 hmac-md5 RFC 4306
1.3.6.1.5.5.8.1.2 hmac-sha1 RFC 4306
1.3.6.1.6.3.1.1.4.1 snmpTrapOID RFC 3418
1.3.6.1.6.3.1.1.4.1.0 snmpTrapOID.0 RFC 3418
1.3.6.1.6.3.1.1.4.3 snmpTrapEnterprise RFC 3418
1.3.6.1.6.3.1.1.4.3.0 snmpTrapEnterprise.0 RFC 3418
1.3.6.1.6.3.1.1.5.1 coldStart RFC 3418
1.3.6.1.6.3.1.1.5.2 warmStart RFC 3418
1.3.6.1.6.3.1.1.5.3 linkDown RFC 2863
1.3.6.1.6.3.1.1.5.4 linkUp RFC 2863
1.3.6.1.6.3.1.1.5.5 authenticationFailure RFC 3418
1.3.6.1.6.3.10.1.1.1 usmNoAuthProtocol RFC 3414
1.3.6.1.6.3.10.1.1.2 usmHMACMD5AuthProtocol RFC 3414
1.3.6.1.6.3.10.1.1.3 usmHMACSHAAuthProtocol RFC 3414
1.3.6.1.6.3.10.1.1.4 usmHMAC128SHA224AuthProtocol RFC 7860
1.3.6.1.6.3.10.1.1.5 usmHMAC192SHA256AuthProtocol RFC 7860
1.3.6.1.6.3.10.1.1.6 usmHMAC256SHA384AuthProtocol RFC 7860
1.3.6.1.6.3.10.1.1.7 usmHMAC384SHA512AuthProtocol RFC 7860
1.3.6.1.6.3.10.1.2.1 usmNoPrivProtocol RFC 3414
1.3.6.1.6.3.10.1.2.2 usmDESPrivProtocol RFC 3414
1.3.6.1.6.3.10.1.2.4 usmAesCfb128Protocol RFC 3826
1.3.6.1.6.3.15.1.1.1 usmStatsUnsupportedSecLevels RFC 3414
1.3.6.1.6.3.15.1.1.1.0 usmStatsUnsupportedSecLevels.0 RFC 3414
1.3.6.1.6.3.15.1.1.2 usmStatsNotInTimeWindows RFC 3414
1.3.6.1.6.3.15.1.1.2.0 usmStatsNotInTimeWindows.0 RFC 3414
1.3.6.1.6.3.15.1.1.3 usmStatsUnknownUserNames RFC 3414
1.3.6.1.6.3.15.1.1.3.0 usmStatsUnknownUserNames.0 RFC 3414
1.3.6.1.6.3.15.1.1.4 usmStatsUnknownEngineIDs RFC 3414
1.3.6.1.6.3.15.1.1.4.0 usmStatsUnknownEngineIDs.0 RFC 3414
1.3.6.1.6.3.15.1.1.5 usmStatsWrongDigests RFC 3414
1.3.6.1.6.3.15.1.1.5.0 usmStatsWrongDigests.0 RFC 3414
1.3.6.1.6.3.15.1.1.6 usmStatsDecryptionErrors RFC 3414
1.3.6.1.6.3.15.1.1.6.0 usmStatsDecryptionErrors.0 RFC 3414
1.3.6.1.7.1.1 mime-mhs-headings RFC 1495
1.3.6.1.7.1.1.1 id-hex-partial-message RFC 1495
1.3.6.1.7.1.1.2 id-hex-multipart-message RFC 1495
1.3.6.1.7.1.2 mime-mhs-bodies RFC 1495
";
